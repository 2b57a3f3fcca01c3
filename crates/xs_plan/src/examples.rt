//! Examples of the rules: small plans and what is told of them. A definition that says something else than the
//! rule fails one of them.
#![tactic(auto, unfolding(xs_base::specs::Once::fresh, crate::specs::Reads::edges, crate::specs::Needed::new_drawings, crate::specs::Needed::last_section_of, crate::specs::Needed::held))]

ghost use Rattle.std.specs.Prelude.{◌≡◌, Some, None, [], ◌∷◌};
ghost use Rattle.xs_plan.specs.declared.job.Reader.TheVariants.{Port, Root};
ghost use Rattle.xs_plan.specs.Reads.{edge, edges, port_read_of, readers_of, reads_in, root_read_of};
ghost use Rattle.xs_plan.specs.Sections.{first_section, live_after, sections_in};
ghost use Rattle.xs_plan.specs.Needed.{held, last_section_of, needs, new_drawings, section_bytes};
ghost use Rattle.xs_plan.specs.Samples.{again, late, square, three_by_two};

/// An alias that reads another at both ports reads it twice.
pub fn an_input_that_is_used_twice()
    ensures all { edges square ≡ edge 0 (Port 1 0) ∷ edge 0 (Port 1 1) ∷ edge 1 (Root 0 0) ∷ [] }
    ensures many { reads_in square ≡ 3 }
    ensures input { readers_of square 0 ≡ 2 }
    ensures root { readers_of square 1 ≡ 1 }
    ensures first { port_read_of square 1 0 ≡ Some 0 }
    ensures second { port_read_of square 1 1 ≡ Some 1 }
    ensures no_third { port_read_of square 1 2 ≡ None }
    ensures no_port { port_read_of square 0 0 ≡ None }
    ensures of_the_tile { root_read_of square 0 0 ≡ 2 }
{}

/// A row that shows what an earlier one showed reads the same alias. An alias is live until its last read.
pub fn rows_that_read_the_same_alias()
    ensures sections { sections_in late ≡ 2 }
    ensures many { reads_in late ≡ 9 }
    ensures nothing { readers_of late 0 ≡ 7 }
    ensures drawing { readers_of late 1 ≡ 2 }
    ensures first { first_section late 1 ≡ 0 }
    ensures between { live_after late 0 ≡ 1 ∷ [] }
    ensures at_the_end { live_after late 1 ≡ [] }
    ensures of_the_last_row { root_read_of late 8 0 ≡ 8 }
{}

/// A drawing that a later section needs again is new once, and is held in between.
pub fn a_drawing_that_is_needed_again()
    ensures sections { sections_in again ≡ 3 }
    ensures first_needs { needs again 0 ≡ 0 ∷ 1 ∷ [] }
    ensures second_needs { needs again 1 ≡ [] }
    ensures third_needs { needs again 2 ≡ 0 ∷ [] }
    ensures first_new { new_drawings again 0 ≡ 0 ∷ 1 ∷ [] }
    ensures second_new { new_drawings again 1 ≡ [] }
    ensures third_new { new_drawings again 2 ≡ [] }
    ensures first_held { held again 0 ≡ 0 ∷ 1 ∷ [] }
    ensures second_held { held again 1 ≡ 0 ∷ [] }
    ensures third_held { held again 2 ≡ 0 ∷ [] }
    ensures last_of_the_first { last_section_of again 0 ≡ Some 2 }
    ensures last_of_the_second { last_section_of again 1 ≡ Some 0 }
    ensures last_of_none { last_section_of again 2 ≡ None }
{}

/// The bytes of a section are those of the drawings that are held in it, four for each point of a drawing's box.
pub fn bytes_of_held_drawings()
    ensures two { section_bytes three_by_two again 0 ≡ 48 }
    ensures one { section_bytes three_by_two again 1 ≡ 24 }
{}
