//! Examples of what rows demand: small scenes, their aliases, reads, sections and drawings. A definition that
//! says something else than the rule fails one of them.
#![tactic(auto, unfolding(xs_base::specs::Once::fresh, xs_pixel::specs::Operations::product, xs_rect::specs::Tiles::tile_area, xs_meaning::specs::Palettes::as_written, xs_meaning::specs::Palettes::style_at, xs_meaning::specs::Palettes::tint_style, xs_meaning::specs::Drawings::colours_of, xs_meaning::specs::Cells::cell_at, xs_meaning::specs::Places::on_line, xs_meaning::specs::Places::own_offset, xs_meaning::specs::Places::place_up, xs_meaning::specs::Walk::terminals_of, xs_meaning::specs::Walk::walk, xs_meaning::specs::Walk::row_walk, xs_meaning::specs::Expressions::by_offsets, xs_plan::specs::Reads::edges, xs_plan::specs::Needed::new_drawings, xs_plan::specs::Needed::last_section_of, xs_plan::specs::Needed::held, crate::specs::Same::same_expr, crate::specs::Aliases::visit, crate::specs::Aliases::aliases_of, crate::specs::Shown::plan_of, crate::specs::Limits::aliases_through, crate::specs::Limits::first_limit))]

ghost use Rattle.std.specs.Prelude.{◌≡◌, Some, None, pos, negsuc, [], ◌∷◌};
ghost use Rattle.xs_pixel.specs.Channels.{channels};
ghost use Rattle.xs_pixel.specs.declared.operation.Op.TheVariants as op;
ghost use Rattle.xs_rect.specs.Area.{area};
ghost use Rattle.xs_scene.specs.declared.node.Ref.TheVariants as to;
ghost use Rattle.xs_scene.specs.declared.node.Node.TheVariants as node;
ghost use Rattle.xs_meaning.specs.Samples.{two_columns, nested_back, filmed, beside_empty, with_empty, blurs, painted, through, green_at_two, columns_alone, held as held_drawing};
ghost use Rattle.xs_plan.specs.declared.job.Job.TheVariants as job;
ghost use Rattle.xs_plan.specs.Reads.{reads_in, readers_of};
ghost use Rattle.xs_plan.specs.Sections.{live_after, sections_in};
ghost use Rattle.xs_plan.specs.Needed.{new_drawings, last_section_of, held};
ghost use Rattle.xs_demand.specs.Limits.{Reach};
ghost use Rattle.xs_demand.specs.Samples.{planned, limited, entry_on, at_origin, held_over, two_tiles, through_node, shuffled_back, shown_again};

/// A drawing that is held over two rows is one alias with two readers.
pub fn holds_are_one_alias()
    ensures aliases { (planned (held_over 1 2) 1 2).entries ≡ at_origin (job.Leaf 0 (pos 0) (pos 0)) [] ∷ [] }
    ensures readers { readers_of (planned (held_over 1 2) 1 2) 0 ≡ 2 }
    ensures reads { reads_in (planned (held_over 1 2) 1 2) ≡ 2 }
{}

/// An input that is used twice has two readers in the one that uses it.
pub fn inputs_used_twice_count_twice()
    ensures aliases { (planned (through_node (node.Pair op.Mult (to.Column 0) (to.Column 0))) 1 1).entries
        ≡ at_origin (job.Leaf 0 (pos 0) (pos 0)) [] ∷ at_origin (job.Pair op.Mult) (0 ∷ 0 ∷ []) ∷ [] }
    ensures readers { readers_of (planned (through_node (node.Pair op.Mult (to.Column 0) (to.Column 0))) 1 1) 0 ≡ 2 }
    ensures root { readers_of (planned (through_node (node.Pair op.Mult (to.Column 0) (to.Column 0))) 1 1) 1 ≡ 1 }
    ensures reads { reads_in (planned (through_node (node.Pair op.Mult (to.Column 0) (to.Column 0))) 1 1) ≡ 3 }
{}

/// The first input of a composed row is its topmost column, and comes before what it lies over.
pub fn the_topmost_column_comes_first()
    ensures { (planned (two_columns None) 1 1).entries
        ≡ at_origin (job.Leaf 1 (pos 0) (pos 0)) [] ∷ at_origin (job.Leaf 2 (pos 0) (pos 0)) []
        ∷ at_origin (job.Pair op.Over) (0 ∷ 1 ∷ []) ∷ [] }
{}

/// Offsets that cancel out leave one alias.
pub fn offsets_are_carried_down()
    ensures nested { (planned nested_back 1 1).entries ≡ at_origin (job.Leaf 0 (pos 0) (pos 0)) [] ∷ [] }
    ensures camera { (planned filmed 1 1).entries ≡ at_origin (job.Leaf 0 (negsuc 1) (pos 0)) [] ∷ [] }
{}

/// Each tile has aliases of its own.
pub fn tiles_have_aliases_of_their_own()
    ensures aliases { (planned two_tiles 1 1).entries
        ≡ entry_on (area (pos 0) (pos 0) 64 1) (job.Leaf 0 (pos 0) (pos 0)) []
        ∷ entry_on (area (pos 64) (pos 0) 1 1) (job.Leaf 0 (pos 0) (pos 0)) [] ∷ [] }
    ensures reads { reads_in (planned two_tiles 1 1) ≡ 2 }
{}

/// An alias is live after a section where a later one reads it.
pub fn a_later_section_keeps_an_alias_alive()
    ensures aliases { (planned (held_over 8 9) 1 9).entries
        ≡ at_origin job.Clear [] ∷ at_origin (job.Leaf 0 (pos 0) (pos 0)) [] ∷ [] }
    ensures readers { readers_of (planned (held_over 8 9) 1 9) 0 ≡ 7 }
    ensures readers_of_the_drawing { readers_of (planned (held_over 8 9) 1 9) 1 ≡ 2 }
    ensures reads { reads_in (planned (held_over 8 9) 1 9) ≡ 9 }
    ensures sections { sections_in (planned (held_over 8 9) 1 9) ≡ 2 }
    ensures after_the_first { live_after (planned (held_over 8 9) 1 9) 0 ≡ 1 ∷ [] }
    ensures at_the_end { live_after (planned (held_over 8 9) 1 9) 1 ≡ [] }
{}

/// A shuffled column is taken with its place at the listed row; past the list nothing is shown.
pub fn shuffles_take_places_along()
    ensures { (planned shuffled_back 2 3).entries
        ≡ at_origin (job.Leaf 0 (pos 0) (pos 0)) [] ∷ at_origin job.Clear [] ∷ [] }
{}

/// Clear inputs leave no alias, but where nothing else is left of the row.
pub fn clear_inputs_are_not_demanded()
    ensures over { (planned beside_empty 1 1).entries ≡ at_origin (job.Leaf 0 (pos 0) (pos 0)) [] ∷ [] }
    ensures over_reads { reads_in (planned beside_empty 1 1) ≡ 1 }
    ensures inside { (planned (with_empty (node.Pair op.MatteIn (to.Column 0) (to.Column 1))) 1 1).entries ≡ at_origin job.Clear [] ∷ [] }
    ensures subtracted { (planned (with_empty (node.Pair op.Sub (to.Column 1) (to.Column 0))) 1 1).entries
        ≡ at_origin (job.Leaf 0 (pos 0) (pos 0)) [] ∷ [] }
{}

/// The input of a blur is demanded on the rectangle grown by the radius, and blurs in a row may not look
/// farther than 64 pixels.
pub fn blurs_demand_grown_rectangles()
    ensures aliases { (planned (through_node (node.Blur (to.Column 0) 1)) 1 1).entries
        ≡ entry_on (area (negsuc 0) (negsuc 0) 3 3) (job.Leaf 0 (pos 0) (pos 0)) []
        ∷ at_origin (job.Blur 1) (0 ∷ []) ∷ [] }
    ensures reads { reads_in (planned (through_node (node.Blur (to.Column 0) 1)) 1 1) ≡ 2 }
    ensures too_far { limited (blurs 4 (16 ∷ 16 ∷ 16 ∷ 16 ∷ [])) 1 1 ≡ Some Reach }
    ensures far { limited (blurs 4 (16 ∷ 16 ∷ 16 ∷ 15 ∷ [])) 1 1 ≡ None }
{}

/// A drawing in other colours than written is another alias; a filter that changes no colour makes none.
pub fn tinted_drawings_are_aliases_of_their_own()
    ensures aliases { (planned (painted green_at_two (columns_alone held_drawing ∷ [])) 1 2).entries
        ≡ at_origin (job.Leaf 0 (pos 0) (pos 0)) [] ∷ at_origin (job.Tinted 0 (pos 0) (pos 0) 0) [] ∷ [] }
    ensures tints { (planned (painted green_at_two (columns_alone held_drawing ∷ [])) 1 2).tints
        ≡ (channels 0 0 0 0 ∷ channels 0 255 0 255 ∷ channels 0 0 255 255 ∷ []) ∷ [] }
    ensures same_colours { (planned (painted [] (through (node.Delete (to.Column 0) (7 ∷ [])) ∷ [])) 1 1).entries
        ≡ at_origin (job.Leaf 0 (pos 0) (pos 0)) [] ∷ [] }
{}

/// A section needs the drawings of the aliases that come first in it, even one that an earlier section needed.
pub fn sections_need_the_drawings_of_new_aliases()
    ensures first { new_drawings (planned shown_again 1 24) 0 ≡ 0 ∷ 1 ∷ [] }
    ensures third { new_drawings (planned shown_again 1 24) 2 ≡ [] }
    ensures last { last_section_of (planned shown_again 1 24) 0 ≡ Some 2 }
    ensures last_of_the_other { last_section_of (planned shown_again 1 24) 1 ≡ Some 0 }
    ensures held_between { held (planned shown_again 1 24) 1 ≡ 0 ∷ [] }
    ensures never { last_section_of (planned shown_again 1 24) 2 ≡ None }
{}
