//! Laws of what is shown at a spot.

ghost use Rattle.std.specs.Prelude.{◌≡◌, ℕ};
ghost use Rattle.xs_meaning.specs.Ends.{AllEnd};
ghost use Rattle.xs_meaning.specs.Expressions.{is_clear, drawings_of, row_expr};
ghost use Rattle.xs_meaning.specs.Palettes.{Dropped};
ghost use Rattle.xs_pixel.specs.Points.{Point};
ghost use Rattle.xs_needs.specs.Shown.{drawings_at, is_clear_at, shown, showing_by};
ghost use Rattle.xs_scene.specs.Records.{SceneRecord};
ghost use Rattle.xs_step.specs.declared.spot.Spot.{Spot};
ghost use Rattle.xs_step.specs.Spots.{spot};
ghost use Rattle.xs_step.specs.Steps.{step_of};

use xs_step::At;

/// Whether a row is clear and what drawings it has know neither the offset nor the dropped styles, and
/// are told step by step.
pub fn spots_tell_what_is_shown()
    ensures drawings { (s : SceneRecord) (k row : ℕ) (f : Dropped) (o : Point)
        → drawings_of (row_expr s k row f o) ≡ drawings_at s (spot k At.Row row) }
    ensures clear { (s : SceneRecord) (k row : ℕ) (f : Dropped) (o : Point)
        → is_clear (row_expr s k row f o) ≡ is_clear_at s (spot k At.Row row) }
    ensures steps { (s : SceneRecord) → AllEnd s.sheets → (p : Spot)
        → shown s p ≡ showing_by s (shown s) p (step_of s p) }
{}
