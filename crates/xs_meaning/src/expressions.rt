//! Laws of the expressions of rows.

ghost use Rattle.std.specs.Prelude.{◌≡◌, ℕ, ◌+◌, ◌^◌, is_none, unwrap_or};
ghost use Rattle.xs_pixel.specs.Channels.{Channels, IsPixel, clear};
ghost use Rattle.xs_pixel.specs.Operations.{apply_of};
ghost use Rattle.xs_pixel.specs.declared.operation.Op.{Op};
ghost use Rattle.xs_meaning.specs.Agreement.{AgreeOn};
ghost use Rattle.xs_meaning.specs.Bounds.{IsWithin, LeavesWithin};
ghost use Rattle.xs_pixel.specs.Picture.{Pictures};
ghost use Rattle.xs_meaning.specs.Expressions.{Expr, Clear, value_of, root_of, row_expr, input_expr, drawings_of, pair_of, blur_of, is_clear, reach_of};
ghost use Rattle.xs_meaning.specs.Extents.{by_extent};
ghost use Rattle.xs_scene.specs.InRange.{IsInRange};
ghost use Rattle.xs_pixel.specs.Picture.{ArePixels};
ghost use Rattle.xs_meaning.specs.Palettes.{Dropped};
ghost use Rattle.xs_pixel.specs.Points.{Point, minus};
ghost use Rattle.xs_meaning.specs.RowValues.{row_under, value_under, frame_pixel};
ghost use Rattle.xs_pixel.specs.Images.{blurred};
ghost use Rattle.xs_meaning.specs.Walk.{whole_row, whole_input};
ghost use Rattle.xs_scene.specs.Records.{SceneRecord};
ghost use Rattle.xs_scene.specs.declared.node.Ref.{Ref};

/// The pixel of a row's root expression at a point of the frame is the row's pixel at that point plus the
/// camera's place. Offsets carried down to the drawings, nested sheets, shuffles, palette keys, filters,
/// blurs and clear inputs that vanish are cases of it.
pub fn root_has_the_value_of_its_row()
    ensures root { (s : SceneRecord) (pictures : Pictures) → IsInRange s → ArePixels pictures
        → (row : ℕ) (p : Point)
        → value_of s pictures (root_of s row) p ≡ frame_pixel s pictures row p }

    // below the root: at any offset, row and dropped styles
    ensures rows { (s : SceneRecord) (pictures : Pictures) → IsInRange s → ArePixels pictures
        → (k row : ℕ) (f : Dropped) (o p : Point)
        → value_of s pictures (row_expr s k row f o) p ≡ row_under s pictures k row f (minus p o) }
    ensures inputs { (s : SceneRecord) (pictures : Pictures) → IsInRange s → ArePixels pictures
        → (k : ℕ) (n : Ref) (row : ℕ) (f : Dropped) (o p : Point)
        → value_of s pictures (input_expr s k n row f o) p
        ≡ value_under s pictures k n row f (minus p o) }
{}

/// Each pixel of a frame is a pixel.
pub fn frames_hold_pixels()
    ensures { (s : SceneRecord) (pictures : Pictures) → IsInRange s → ArePixels pictures
        → (row : ℕ) (p : Point) → IsPixel (frame_pixel s pictures row p) }
{}

/// The frame of a row depends on the pictures of its expression's own drawings alone: a drawing that the
/// row shows outside its expression changes no pixel.
pub fn only_own_drawings_count()
    ensures { (s : SceneRecord) (pictures others : Pictures) → IsInRange s → ArePixels pictures
        → ArePixels others → (row : ℕ) → AgreeOn pictures others (drawings_of (root_of s row))
        → (p : Point) → frame_pixel s pictures row p ≡ frame_pixel s others row p }
{}

/// A pair from which clear inputs have vanished has the value of the pair; a blur of what is clear is
/// clear.
pub fn clear_inputs_vanish()
    ensures pair { (s : SceneRecord) (pictures : Pictures) (op : Op) (a b : Expr) (p : Point)
        → IsPixel (value_of s pictures a p) → IsPixel (value_of s pictures b p)
        → value_of s pictures (pair_of op a b) p
        ≡ apply_of op (value_of s pictures a p) (value_of s pictures b p) }
    ensures blur { (s : SceneRecord) (pictures : Pictures) (n : ℕ) (a : Expr) (p : Point)
        → value_of s pictures (blur_of n a) p ≡ blurred n (value_of s pictures a) p }
    ensures blur_of_clear { (n : ℕ) (p : Point) → blurred n (λ q. clear) p ≡ clear }
{}

/// Whether an expression is clear, and how far it reaches, are told without its offset, so they do not
/// depend on it.
pub fn clear_and_reach_know_no_offset()
    ensures clear_rows { (s : SceneRecord) (k row : ℕ) (f : Dropped) (o : Point)
        → is_clear (row_expr s k row f o) ≡ is_none (whole_row by_extent s.sheets k row f) }
    ensures clear_inputs { (s : SceneRecord) (k : ℕ) (n : Ref) (row : ℕ) (f : Dropped) (o : Point)
        → is_clear (input_expr s k n row f o) ≡ is_none (whole_input by_extent s.sheets k n row f) }
    ensures reach_of_rows { (s : SceneRecord) (k row : ℕ) (f : Dropped) (o : Point)
        → reach_of (row_expr s k row f o) ≡ unwrap_or (whole_row by_extent s.sheets k row f) 0 }
    ensures reach_of_inputs { (s : SceneRecord) (k : ℕ) (n : Ref) (row : ℕ) (f : Dropped) (o : Point)
        → reach_of (input_expr s k n row f o)
        ≡ unwrap_or (whole_input by_extent s.sheets k n row f) 0 }
{}

/// The offsets of drawings stay bounded: 16 nested sheets add at most 2^26 to the offset under which a
/// row stands, and the camera at most 2^22.
pub fn offsets_of_drawings_are_bounded()
    ensures rows { (s : SceneRecord) → IsInRange s → (k row : ℕ) (f : Dropped) (b : ℕ) (o : Point)
        → IsWithin b o → LeavesWithin (b + 2 ^ 26) (row_expr s k row f o) }
    ensures roots { (s : SceneRecord) → IsInRange s → (row : ℕ) → LeavesWithin (2 ^ 22 + 2 ^ 26) (root_of s row) }
{}
