//! Laws of the images of expressions and of the aliases of plans, and of the tints that colour them.

ghost use Rattle.std.specs.Prelude.{◌≡◌, ◌<◌, ℕ, Some, List, All, length, map, slice_get};
ghost use Rattle.xs_pixel.specs.Picture.{Pictures, ArePixels};
ghost use Rattle.xs_pixel.specs.Points.{Point};
ghost use Rattle.xs_rect.specs.Area.{Area};
ghost use Rattle.xs_scene.specs.InRange.{IsInRange};
ghost use Rattle.xs_scene.specs.Records.{SceneRecord};
ghost use Rattle.xs_meaning.specs.Drawings.{AreColouredAsWritten};
ghost use Rattle.xs_meaning.specs.Expressions.{Expr, root_of, value_of};
ghost use Rattle.xs_meaning.specs.RowValues.{frame_pixel};
ghost use Rattle.xs_plan.specs.Record.{PlanRecord, root_at};
ghost use Rattle.xs_plan.specs.Values.{value_in};
ghost use Rattle.xs_demand.specs.Aliases.{Alias, aliases_of};
ghost use Rattle.xs_demand.specs.Images.{image_of};
ghost use Rattle.xs_demand.specs.Renamed.{renamed};
ghost use Rattle.xs_demand.specs.Shown.{ShowsRoots, StandsAt, plan_of, tints_of};
ghost use Rattle.xs_demand.specs.Tints.{tints_within, IsCanonical};

use xs_meaning::expressions::root_has_the_value_of_its_row;
use xs_meaning::filters::{clear_pixels_at_the_end_tell_nothing, tint_is_canonical};

/// Over pictures that are coloured as their palettes are written, the image of an expression has its value at
/// each point.
pub fn written_pictures_have_the_values()
    ensures { (s : SceneRecord) (pictures : Pictures) → AreColouredAsWritten s pictures
        → (e : Expr) (q : Point) → image_of pictures e q ≡ value_of s pictures e q }
{}

/// An alias of a plan that shows a list of roots has at each point the pixel of its expression; and the alias
/// of a row and tile that of the row's root.
pub fn a_shown_plan_has_the_images()
    ensures aliases { (pictures : Pictures) (tiles : List Area) (roots : List Expr) (p : PlanRecord)
        → ShowsRoots tiles roots p → (x : Alias) (k : ℕ) → StandsAt (aliases_of tiles roots) x k
        → (q : Point) → value_in pictures p k q ≡ image_of pictures x.expr q }
    ensures roots { (pictures : Pictures) (tiles : List Area) (roots : List Expr) (p : PlanRecord)
        → ShowsRoots tiles roots p → (row tile : ℕ) (e : Expr) → slice_get roots row ≡ Some e
        → tile < length tiles
        → (q : Point) → value_in pictures p (root_at p row tile) q ≡ image_of pictures e q }
{
    clear_pixels_at_the_end_tell_nothing();
}

/// The alias that a plan has for a row and tile has at each point the pixel of that row's frame, where the
/// root at the row's place is that of a row of the scene. This holds too where the drawings have other
/// numbers in the plan, as those of a second scene have.
pub fn the_root_of_a_tile_has_the_rows_pixels()
    ensures named { (s : SceneRecord) (pictures : Pictures) (names : ℕ → ℕ) (tiles : List Area)
        (roots : List Expr) (p : PlanRecord)
        → IsInRange s → ArePixels pictures → AreColouredAsWritten s (λ d. pictures (names d))
        → ShowsRoots tiles roots p
        → (place tile row : ℕ) → slice_get roots place ≡ Some (renamed names (root_of s row))
        → tile < length tiles
        → (q : Point) → value_in pictures p (root_at p place tile) q
        ≡ frame_pixel s (λ d. pictures (names d)) row q }
    ensures own { (s : SceneRecord) (pictures : Pictures) (tiles : List Area) (roots : List Expr) (p : PlanRecord)
        → IsInRange s → ArePixels pictures → AreColouredAsWritten s pictures → ShowsRoots tiles roots p
        → (place tile row : ℕ) → slice_get roots place ≡ Some (root_of s row) → tile < length tiles
        → (q : Point) → value_in pictures p (root_at p place tile) q ≡ frame_pixel s pictures row q }
{
    clear_pixels_at_the_end_tell_nothing();
    root_has_the_value_of_its_row();
}

/// The tints of the root of a scene's row are canonical; so are those of the aliases that roots with such tints
/// demand, and so the plan of the rows of a scene shows them.
pub fn roots_have_canonical_tints()
    ensures expressions { (s : SceneRecord) (row : ℕ) → All IsCanonical (tints_within (root_of s row)) }
    ensures aliases { (tiles : List Area) (roots : List Expr) → All (λ e. All IsCanonical (tints_within e)) roots
        → All IsCanonical (tints_of (aliases_of tiles roots)) }
    ensures rows { (s : SceneRecord) (tiles : List Area) (rows : List ℕ)
        → All IsCanonical (tints_of (aliases_of tiles (map (root_of s) rows))) }
    ensures plans { (s : SceneRecord) (tiles : List Area) (rows : List ℕ) (drawings : ℕ)
        → ShowsRoots tiles (map (root_of s) rows) (plan_of tiles (map (root_of s) rows) drawings) }
{
    tint_is_canonical();
}
