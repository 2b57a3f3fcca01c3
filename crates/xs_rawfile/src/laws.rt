//! Laws of level files, each on a function that does nothing: its contract is the law.

ghost use Rattle.std.specs.Prelude.{◌≡◌, ℕ, ◌<◌, List, None};
ghost use Rattle.std.specs.Simd.Lanes.{Each1};
ghost use Rattle.xs_rawfile.specs.declared.drawing.RawKind.{RawKind as Kind};
ghost use Rattle.xs_rawfile.specs.Raw.{IsRaw};
ghost use Rattle.xs_rawfile.specs.Level.{raw_of, first_fault};

/// A file without a fault holds a drawing: its fields are in their ranges, and its bytes fill its box.
pub fn files_without_fault_hold_drawings()
    ensures { (kind : Kind) (bytes : List ℕ) → Each1 (λ b. b < 256) bytes → first_fault kind bytes ≡ None → IsRaw (raw_of kind bytes) }
{}
