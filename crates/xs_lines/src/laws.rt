//! A law of lines.

ghost use Rattle.std.specs.Prelude.{◌∷◌, ℕ, List, take};
ghost use Rattle.xs_lines.specs.Lines.{IsFront, with_ends};

/// A front part of lines is whole lines and a front part of the next: so it is where several are written at once.
pub fn a_front_part_of_lines_ends_in_one_of_them()
    ensures { (line : List ℕ) (lines : List (List ℕ)) (bytes : ℕ)
        → IsFront (line ∷ lines) (take bytes (with_ends (line ∷ lines))) }
{}
