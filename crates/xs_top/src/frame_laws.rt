//! Laws of sections and of the names of frames.
ghost use Rattle.std.specs.Prelude.{◌≡◌, ◌≤◌, ◌<◌, ◌+◌, ◌*◌, ◌-◌, ◌/◌, ℕ, List, length};
ghost use Rattle.std.specs.List.{range_with_len};
ghost use Rattle.xs_base.specs.Sections.{section_rows, sections_in};
ghost use Rattle.xs_top.specs.Frames.{frame_name_of};

/// A section has eight rows, each behind the one before; the last one has those that are left, at least one and
/// at most eight.
pub fn sections_have_eight_rows()
    ensures whole { (from to section : ℕ) → from ≤ to → section + 1 < sections_in from to
        → section_rows from to section ≡ range_with_len (from + 8 * section) 8 }
    ensures last { (from to section : ℕ) → from ≤ to → section + 1 ≡ sections_in from to
        → section_rows from to section ≡ range_with_len (from + 8 * section) (to + 1 - (from + 8 * section)) }
    ensures some { (from to section : ℕ) → from ≤ to → section < sections_in from to
        → 0 < length (section_rows from to section) }
    ensures few { (from to section : ℕ) → length (section_rows from to section) ≤ 8 }
{}

/// Frames of different rows have different names, where the rows have at most four digits and the base is one.
pub fn frames_have_names_of_their_own()
    ensures { (base : List ℕ) (row other : ℕ) → row ≤ 9999 → other ≤ 9999
        → frame_name_of base row ≡ frame_name_of base other → row ≡ other }
{}
