//! Laws of palettes, palette keys and palette filters.

ghost use Rattle.std.specs.Prelude.{◌≡◌, ◌≤◌, ◌<◌, ℕ, true, false, Some, None, List, All, MatchOption, length, slice_index_or};
ghost use Rattle.xs_base.specs.declared.limits.TheConstants.{STYLE_NUMBERS};
ghost use Rattle.xs_pixel.specs.Channels.{Channels, clear};
ghost use Rattle.xs_meaning.specs.Agreement.{AgreeOnWords, UsesNoneOf, UsesOnly, DropsAlike, PalettesAlike};
ghost use Rattle.xs_meaning.specs.Chosen.{IsStyleKeyInForce};
ghost use Rattle.xs_pixel.specs.Picture.{Pictures};
ghost use Rattle.xs_meaning.specs.Expressions.{row_expr, input_expr};
ghost use Rattle.xs_meaning.specs.Palettes.{Dropped, deleting, keeping, pixel_of, as_written, key_at, style_at, tint_at, tint_style, without_clear_end};
ghost use Rattle.xs_base.specs.Listed.{is_listed};
ghost use Rattle.xs_pixel.specs.Points.{Point};
ghost use Rattle.xs_meaning.specs.RowValues.{row_under, value_under};
ghost use Rattle.xs_scene.specs.Records.{SceneRecord, ColoursRecord, StyleKeyRecord};
ghost use Rattle.xs_scene.specs.declared.node.Ref.{Ref};

/// A style has at a row the colour of the last of its keys at or before the row. Without such a key all its
/// keys come later, and it is as written. A style that the palette lacks is clear.
pub fn palette_keys_are_chosen_by_row()
    ensures in_force { (c : ColoursRecord) (row style : ℕ)
        → MatchOption (key_at c row style) (All (λ k. k.style ≡ style → row < k.row) c.keys)
        (IsStyleKeyInForce c.keys row style) }
    ensures sets { (c : ColoursRecord) (row style : ℕ) (f : Dropped) (key : StyleKeyRecord)
        → key_at c row style ≡ Some key → 1 ≤ style → style < length c.styles → f style ≡ false
        → style_at c row f style ≡ pixel_of key.to }
    ensures without_key { (c : ColoursRecord) (row style : ℕ) (f : Dropped) → key_at c row style ≡ None
        → f style ≡ false → style_at c row f style ≡ as_written c style }
    ensures lacking { (c : ColoursRecord) (row style : ℕ) (f : Dropped) → length c.styles ≤ style
        → style_at c row f style ≡ clear }
{}

/// Delete makes the listed styles clear and leaves every other as it was. Keep leaves the listed styles as
/// they were and makes every other style number clear.
pub fn filters_drop_styles()
    ensures deleted { (c : ColoursRecord) (row style : ℕ) (styles : List ℕ) (f : Dropped)
        → is_listed styles style ≡ true → style_at c row (deleting styles f) style ≡ clear }
    ensures not_deleted { (c : ColoursRecord) (row style : ℕ) (styles : List ℕ) (f : Dropped)
        → is_listed styles style ≡ false → style_at c row (deleting styles f) style ≡ style_at c row f style }
    ensures kept { (c : ColoursRecord) (row style : ℕ) (styles : List ℕ) (f : Dropped)
        → is_listed styles style ≡ true → style_at c row (keeping styles f) style ≡ style_at c row f style }
    ensures not_kept { (c : ColoursRecord) (row style : ℕ) (styles : List ℕ) (f : Dropped)
        → style < STYLE_NUMBERS → is_listed styles style ≡ false → style_at c row (keeping styles f) style ≡ clear }
{}

/// A tint gives each style its pixel, and palettes that give every style the same pixel have one tint.
pub fn tint_is_canonical()
    ensures pixels { (c : ColoursRecord) (row : ℕ) (f : Dropped) (style : ℕ)
        → tint_style (tint_at c row f) style ≡ style_at c row f style }
    ensures one { (c other : ColoursRecord) (row more : ℕ) (f g : Dropped)
        → ((style : ℕ) → style_at c row f style ≡ style_at other more g style)
        → tint_at c row f ≡ tint_at other more g }

    // whatever list has the pixel of each style
    ensures any_list { (c : ColoursRecord) (row : ℕ) (f : Dropped) (pixels : List Channels)
        → ((style : ℕ) → slice_index_or pixels style clear ≡ style_at c row f style)
        → without_clear_end pixels ≡ tint_at c row f }
{}

/// Clear pixels at the end of a list tell nothing: without them it has the same pixels at each number,
/// and all lists that have the same are one.
pub fn clear_pixels_at_the_end_tell_nothing()
    ensures pixels { (pixels : List Channels) (i : ℕ)
        → slice_index_or (without_clear_end pixels) i clear ≡ slice_index_or pixels i clear }
    ensures one { (pixels others : List Channels)
        → ((i : ℕ) → slice_index_or pixels i clear ≡ slice_index_or others i clear)
        → without_clear_end pixels ≡ without_clear_end others }
{}

/// Filters and palette keys that leave every style its pixel change no expression.
pub fn same_pixels_make_the_same_expression()
    ensures filters { (s : SceneRecord) (f g : Dropped) → DropsAlike s f g → (k row : ℕ) (o : Point)
        → row_expr s k row f o ≡ row_expr s k row g o }
    ensures filters_on_inputs { (s : SceneRecord) (f g : Dropped) → DropsAlike s f g
        → (k : ℕ) (n : Ref) (row : ℕ) (o : Point)
        → input_expr s k n row f o ≡ input_expr s k n row g o }
    ensures keys { (s : SceneRecord) (others : List ColoursRecord) → PalettesAlike s.palettes others
        → (k row : ℕ) (f : Dropped) (o : Point)
        → row_expr s k row f o ≡ row_expr (record s { palettes = others }) k row f o }
{}

/// A filter that drops no style that a drawing's words use changes no value.
pub fn unused_styles_change_no_value()
    ensures deleted { (s : SceneRecord) (pictures : Pictures) (styles : List ℕ) → UsesNoneOf styles pictures
        → (k : ℕ) (n : Ref) (row : ℕ) (f : Dropped) (p : Point)
        → value_under s pictures k n row (deleting styles f) p ≡ value_under s pictures k n row f p }
    ensures kept { (s : SceneRecord) (pictures : Pictures) (styles : List ℕ) → UsesOnly styles pictures
        → (k : ℕ) (n : Ref) (row : ℕ) (f : Dropped) (p : Point)
        → value_under s pictures k n row (keeping styles f) p ≡ value_under s pictures k n row f p }
    ensures rows { (s : SceneRecord) (pictures : Pictures) (f g : Dropped) → AgreeOnWords pictures f g
        → (k row : ℕ) (p : Point) → row_under s pictures k row f p ≡ row_under s pictures k row g p }
{}
