//! Examples of the rules: small scenes and what they show. A definition that says something else than
//! the rule fails one of them.
#![tactic(auto, unfolding(xs_pixel::specs::Operations::product, xs_pixel::specs::Picture::at_point, xs_pixel::specs::Picture::place_in_box, xs_cm32::specs::Word::mixed, crate::specs::Palettes::as_written, crate::specs::Palettes::style_at, crate::specs::Palettes::tint_style, crate::specs::Drawings::colours_of, crate::specs::Drawings::drawing_pixel, crate::specs::Cells::cell_at, crate::specs::Places::on_line, crate::specs::Places::own_offset, crate::specs::Places::place_up, crate::specs::Walk::terminals_of, crate::specs::Walk::walk, crate::specs::Walk::row_walk, xs_pixel::specs::Images::blurred, crate::specs::RowValues::by_points, crate::specs::Expressions::by_offsets))]

ghost use Rattle.std.specs.Prelude.{◌≡◌, Some, None, pos, negsuc, [], ◌∷◌};
ghost use Rattle.xs_pixel.specs.Channels.{Channels, channels, clear};
ghost use Rattle.xs_pixel.specs.declared.operation.Op.TheVariants as op;
ghost use Rattle.xs_scene.specs.declared.node.Ref.TheVariants as to;
ghost use Rattle.xs_scene.specs.declared.node.Node.TheVariants as node;
ghost use Rattle.xs_meaning.specs.Ends.{AllEnd};
ghost use Rattle.xs_meaning.specs.Expressions.{Clear, Leaf, Tinted, Pair, Card, Blur, root_of, reach_of, drawings_of};
ghost use Rattle.xs_meaning.specs.Inputs.{inputs_of};
ghost use Rattle.xs_meaning.specs.Places.{place_of};
ghost use Rattle.xs_pixel.specs.Points.{Point, point, origin};
ghost use Rattle.xs_meaning.specs.RowValues.{frame_pixel};
ghost use Rattle.xs_meaning.specs.Samples.{dark, half_red, blue, three_pixels, mixed_word, no_ink, lacking_ink, wide, mixed_kinds, columns_alone, held, held_twice, nested, nested_back, shuffled, pegs, filmed, two_columns, one_off, beside_empty, with_empty, blurs, filtered_nested, painted, through, green_at_two, two_levels, style, every_kind};

/// A drawing is held over the rows of its exposure, and a row without an exposure shows nothing.
pub fn holds_and_gaps()
    ensures before { frame_pixel held_twice three_pixels 1 origin ≡ clear }
    ensures first { frame_pixel held_twice three_pixels 2 origin ≡ dark }
    ensures held { frame_pixel held_twice three_pixels 3 origin ≡ dark }
    ensures gap { frame_pixel held_twice three_pixels 4 origin ≡ clear }
    ensures next { frame_pixel held_twice three_pixels 5 origin ≡ half_red }
    ensures outside { frame_pixel held_twice three_pixels 2 (point (pos 1) (pos 0)) ≡ clear }
{}

/// A drawing's pixels go through its box from the lowest row up, each row from left to right, and it is
/// clear outside.
pub fn boxes()
    ensures left { frame_pixel held_twice wide 2 (point (pos 4) (pos 7)) ≡ dark }
    ensures right { frame_pixel held_twice wide 2 (point (pos 5) (pos 7)) ≡ blue }
    ensures outside { frame_pixel held_twice wide 2 (point (pos 6) (pos 7)) ≡ clear }
    ensures above { frame_pixel held_twice wide 2 (point (pos 5) (pos 8)) ≡ clear }
{}

/// A drawing without a file is clear, and so is one whose file is of another kind than its level.
pub fn files_that_lack_or_do_not_fit()
    ensures no_file { frame_pixel held_twice mixed_word 5 origin ≡ clear }
    ensures words_in_a_colour_level { frame_pixel held_twice mixed_word 2 origin ≡ clear }
    ensures pixels_in_a_cm32_level { frame_pixel (painted [] (columns_alone held ∷ [])) three_pixels 1 origin ≡ clear }
{}

/// An exposure of a sheet shows the row that is as far from `start` as the row is from the exposure's
/// first. The places inside are those of the inner row.
pub fn nested_sheets()
    ensures from_start { root_of nested 5 ≡ Leaf 0 (point (pos 23) (pos 0)) }
    ensures next_row { root_of nested 6 ≡ Leaf 1 (point (pos 33) (pos 0)) }
    ensures inner_gap { root_of nested 8 ≡ Clear }
    ensures pixel { frame_pixel nested three_pixels 6 (point (pos 33) (pos 0)) ≡ half_red }
    ensures places_cancel { root_of nested_back 1 ≡ Leaf 0 origin }
{}

/// A shuffle shows its input at the listed row, its places included, and nothing past its list.
pub fn shuffles()
    ensures first { root_of shuffled 1 ≡ Leaf 0 (point (pos 5) (pos 0)) }
    ensures second { root_of shuffled 2 ≡ Leaf 1 origin }
    ensures past_the_list { root_of shuffled 3 ≡ Clear }
    ensures pixel { frame_pixel shuffled three_pixels 1 (point (pos 5) (pos 0)) ≡ dark }
    ensures no_pixel { frame_pixel shuffled three_pixels 3 origin ≡ clear }
{}

/// A key holds until the next one; a line key moves in a straight line to it, rounded down, and holds
/// where there is none.
pub fn places_by_keys()
    ensures line_starts { place_of pegs (Some 0) 1 ≡ origin }
    ensures line_after_a_third { place_of pegs (Some 0) 2 ≡ point (negsuc 1) (pos 3) }
    ensures line_after_two_thirds { place_of pegs (Some 0) 3 ≡ point (negsuc 3) (pos 6) }
    ensures line_ends { place_of pegs (Some 0) 4 ≡ point (negsuc 4) (pos 10) }
    ensures key_stays { place_of pegs (Some 0) 5 ≡ point (negsuc 4) (pos 10) }
    ensures last_line_key { place_of pegs (Some 0) 9 ≡ point (pos 50) (pos 50) }
    ensures any_order { place_of pegs (Some 1) 3 ≡ point (negsuc 3) (pos 6) }
    ensures before_the_first_key { place_of pegs (Some 2) 1 ≡ origin }
    ensures held { place_of pegs (Some 2) 3 ≡ point (pos 1) (pos 2) }
    ensures no_peg { place_of pegs None 3 ≡ origin }
{}

/// A peg moves with its parent.
pub fn places_of_parents()
    ensures before_its_own_key { place_of pegs (Some 3) 2 ≡ point (pos 1) (pos 2) }
    ensures both { place_of pegs (Some 3) 3 ≡ point (pos 101) (pos 102) }
    ensures parent_moves { place_of pegs (Some 3) 4 ≡ point (pos 95) (pos 110) }
{}

/// The frame looks at the scene from the camera's place at its row.
pub fn cameras()
    ensures root { root_of filmed 1 ≡ Leaf 0 (point (negsuc 1) (pos 0)) }
    ensures left { frame_pixel filmed three_pixels 1 (point (negsuc 1) (pos 0)) ≡ dark }
    ensures away { frame_pixel filmed three_pixels 1 origin ≡ clear }
    ensures moved { root_of filmed 2 ≡ Leaf 0 (point (pos 0) (negsuc 6)) }
    ensures below { frame_pixel filmed three_pixels 2 (point (pos 0) (negsuc 6)) ≡ dark }
{}

/// Columns further right lie above, as do later terminals of `out`; a column that is off counts only
/// where `out` is absent.
pub fn terminals()
    ensures right_above_left { root_of (two_columns None) 1 ≡ Pair op.Over (Leaf 1 origin) (Leaf 2 origin) }
    ensures top_first { drawings_of (root_of (two_columns None) 1) ≡ 1 ∷ 2 ∷ [] }
    ensures pixel { frame_pixel (two_columns None) three_pixels 1 origin ≡ channels 128 0 127 255 }
    ensures other_order { root_of (two_columns (Some (to.Column 1 ∷ to.Column 0 ∷ []))) 1
        ≡ Pair op.Over (Leaf 2 origin) (Leaf 1 origin) }
    ensures other_pixel { frame_pixel (two_columns (Some (to.Column 1 ∷ to.Column 0 ∷ []))) three_pixels 1 origin
        ≡ blue }
    ensures nothing_above { root_of beside_empty 1 ≡ Leaf 0 origin }
    ensures off { root_of (one_off None) 1 ≡ Leaf 2 origin }
    ensures off_but_listed { root_of (one_off (Some (to.Column 0 ∷ to.Column 1 ∷ []))) 1
        ≡ Pair op.Over (Leaf 1 origin) (Leaf 2 origin) }
    ensures none { root_of (one_off (Some [])) 1 ≡ Clear }
{}

/// A pair is its operation on its first input, the upper one, and its second; a card is its pixel
/// everywhere.
pub fn pairs_and_cards()
    ensures product { frame_pixel (with_empty (node.Pair op.Mult (to.Column 0) (to.Column 0))) three_pixels 1 origin ≡ channels 0 2 4 255 }
    ensures pair { root_of (with_empty (node.Pair op.Mult (to.Column 0) (to.Column 0))) 1 ≡ Pair op.Mult (Leaf 0 origin) (Leaf 0 origin) }
    ensures card { root_of (with_empty (node.Card (style 255 0 0 128))) 1 ≡ Card (channels 128 0 0 128) }
    ensures clear_card { root_of (with_empty (node.Card (style 9 9 9 0))) 1 ≡ Clear }
    ensures no_drawing { drawings_of (root_of (with_empty (node.Card (style 255 0 0 128))) 1) ≡ [] }
{}

/// What vanishes from a pair where the first input shows nothing (column 1).
pub fn pairs_with_clear_first()
    ensures over { root_of (with_empty (node.Pair op.Over (to.Column 1) (to.Column 0))) 1 ≡ Leaf 0 origin }
    ensures add { root_of (with_empty (node.Pair op.Add (to.Column 1) (to.Column 0))) 1 ≡ Leaf 0 origin }
    ensures sub { root_of (with_empty (node.Pair op.Sub (to.Column 1) (to.Column 0))) 1 ≡ Leaf 0 origin }
    ensures mult { root_of (with_empty (node.Pair op.Mult (to.Column 1) (to.Column 0))) 1 ≡ Clear }
    ensures min { root_of (with_empty (node.Pair op.Min (to.Column 1) (to.Column 0))) 1 ≡ Clear }
    ensures max { root_of (with_empty (node.Pair op.Max (to.Column 1) (to.Column 0))) 1 ≡ Leaf 0 origin }
    ensures matte_in { root_of (with_empty (node.Pair op.MatteIn (to.Column 1) (to.Column 0))) 1 ≡ Clear }
    ensures matte_out { root_of (with_empty (node.Pair op.MatteOut (to.Column 1) (to.Column 0))) 1 ≡ Clear }
{}

/// What vanishes from a pair where the second input shows nothing.
pub fn pairs_with_clear_second()
    ensures over { root_of (with_empty (node.Pair op.Over (to.Column 0) (to.Column 1))) 1 ≡ Leaf 0 origin }
    ensures add { root_of (with_empty (node.Pair op.Add (to.Column 0) (to.Column 1))) 1 ≡ Leaf 0 origin }
    ensures sub { root_of (with_empty (node.Pair op.Sub (to.Column 0) (to.Column 1))) 1 ≡ Clear }
    ensures mult { root_of (with_empty (node.Pair op.Mult (to.Column 0) (to.Column 1))) 1 ≡ Clear }
    ensures min { root_of (with_empty (node.Pair op.Min (to.Column 0) (to.Column 1))) 1 ≡ Clear }
    ensures max { root_of (with_empty (node.Pair op.Max (to.Column 0) (to.Column 1))) 1 ≡ Leaf 0 origin }
    ensures matte_in { root_of (with_empty (node.Pair op.MatteIn (to.Column 0) (to.Column 1))) 1 ≡ Clear }
    ensures matte_out { root_of (with_empty (node.Pair op.MatteOut (to.Column 0) (to.Column 1))) 1 ≡ Leaf 0 origin }
{}

/// A blur of radius 1 spreads a pixel over nine, and rounds down; reaches add up.
pub fn blurs_of_pixels()
    ensures root { root_of (with_empty (node.Blur (to.Column 0) 1)) 1 ≡ Blur 1 (Leaf 0 origin) }
    ensures middle { frame_pixel (with_empty (node.Blur (to.Column 0) 1)) three_pixels 1 origin
        ≡ channels 1 2 3 28 }
    ensures corner { frame_pixel (with_empty (node.Blur (to.Column 0) 1)) three_pixels 1 (point (negsuc 0) (pos 1))
        ≡ channels 1 2 3 28 }
    ensures beyond { frame_pixel (with_empty (node.Blur (to.Column 0) 1)) three_pixels 1 (point (pos 2) (pos 0))
        ≡ clear }
    ensures rounded_down { frame_pixel (with_empty (node.Blur (to.Column 0) 1)) wide 1 (point (pos 4) (pos 7))
        ≡ channels 1 2 31 56 }
    ensures drawing { drawings_of (root_of (with_empty (node.Blur (to.Column 0) 1)) 1) ≡ 0 ∷ [] }
    ensures of_nothing { root_of (with_empty (node.Blur (to.Column 1) 16)) 1 ≡ Clear }
    ensures reach { reach_of (root_of (blurs 4 (16 ∷ 16 ∷ 16 ∷ 16 ∷ [])) 1) ≡ 65 }
{}

/// A word is coloured by the palette of its level; filters make styles clear, also in nested sheets.
pub fn palette_filters()
    ensures unfiltered { frame_pixel (painted [] (columns_alone held ∷ [])) mixed_word 1 origin
        ≡ channels 155 0 100 255 }
    ensures style_zero { frame_pixel (painted [] (columns_alone held ∷ [])) no_ink 1 origin ≡ clear }
    ensures lacking_style { frame_pixel (painted [] (columns_alone held ∷ [])) lacking_ink 1 origin ≡ clear }
    ensures deleted { frame_pixel (painted [] (through (node.Delete (to.Column 0) (1 ∷ [])) ∷ [])) mixed_word 1 origin
        ≡ channels 0 0 100 100 }
    ensures kept { frame_pixel (painted [] (through (node.Keep (to.Column 0) (1 ∷ [])) ∷ [])) mixed_word 1 origin
        ≡ channels 155 0 0 155 }
    ensures kept_inside { frame_pixel (filtered_nested (node.Keep (to.Column 0) (1 ∷ [])) []) mixed_word 1 origin
        ≡ channels 155 0 0 155 }
    ensures tinted { root_of (painted [] (through (node.Delete (to.Column 0) (2 ∷ [])) ∷ [])) 1
        ≡ Tinted 0 origin (clear ∷ channels 255 0 0 255 ∷ []) }
    ensures drawing { drawings_of (root_of (painted [] (through (node.Delete (to.Column 0) (2 ∷ [])) ∷ [])) 1) ≡ 0 ∷ [] }
    ensures unused { root_of (painted [] (through (node.Delete (to.Column 0) (7 ∷ [])) ∷ [])) 1 ≡ Leaf 0 origin }
    ensures second_level { root_of two_levels 1 ≡ Leaf 2 origin }
    ensures second_level_pixel { frame_pixel two_levels mixed_kinds 1 origin ≡ channels 155 0 100 255 }
{}

/// A palette key sets its style from its row on: the row of the sheet in which the column stands.
pub fn palette_keys()
    ensures before { frame_pixel (painted green_at_two (columns_alone held ∷ [])) mixed_word 1 origin
        ≡ channels 155 0 100 255 }
    ensures from_its_row { frame_pixel (painted green_at_two (columns_alone held ∷ [])) mixed_word 2 origin
        ≡ channels 0 155 100 255 }
    ensures leaf { root_of (painted green_at_two (columns_alone held ∷ [])) 1 ≡ Leaf 0 origin }
    ensures tinted { root_of (painted green_at_two (columns_alone held ∷ [])) 2
        ≡ Tinted 0 origin (clear ∷ channels 0 255 0 255 ∷ blue ∷ []) }
    ensures inner_row { frame_pixel (filtered_nested (node.Delete (to.Column 0) (2 ∷ [])) green_at_two) mixed_word 1 origin
        ≡ channels 0 155 0 155 }
    ensures shuffled_row { frame_pixel (painted green_at_two (through (node.Shuffle (to.Column 0) (2 ∷ [])) ∷ [])) mixed_word 1 origin
        ≡ channels 0 155 100 255 }
{}

/// The nodes among the inputs of a node, the first input before the second.
pub fn nodes_among_inputs()
    ensures pair { inputs_of (node.Pair op.Over (to.Node 3) (to.Node 1)) ≡ 3 ∷ 1 ∷ [] }
    ensures first_is_a_column { inputs_of (node.Pair op.Over (to.Column 3) (to.Node 1)) ≡ 1 ∷ [] }
    ensures second_is_a_column { inputs_of (node.Pair op.Over (to.Node 3) (to.Column 1)) ≡ 3 ∷ [] }
    ensures card { inputs_of (node.Card (style 255 0 0 255)) ≡ [] }
    ensures shuffle { inputs_of (node.Shuffle (to.Node 3) (1 ∷ [])) ≡ 3 ∷ [] }
    ensures blur { inputs_of (node.Blur (to.Node 3) 1) ≡ 3 ∷ [] }
    ensures keep { inputs_of (node.Keep (to.Node 3) (1 ∷ [])) ≡ 3 ∷ [] }
    ensures delete { inputs_of (node.Delete (to.Node 3) (1 ∷ [])) ≡ 3 ∷ [] }
{}

/// In a scene with every kind of node, a nested sheet and a peg with a parent every way ends.
pub fn sample_scene_ends()
    ensures { AllEnd every_kind }
{}
