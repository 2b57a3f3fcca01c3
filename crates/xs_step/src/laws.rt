//! Laws of steps.
ghost use Rattle.std.specs.Prelude.{◌≡◌, ◌≤◌, ℕ, length};
ghost use Rattle.xs_base.specs.declared.limits.TheConstants.{MOST_NODES};
ghost use Rattle.xs_meaning.specs.Ends.{AllEnd};
ghost use Rattle.xs_meaning.specs.Expressions.{by_offsets};
ghost use Rattle.xs_meaning.specs.Extents.{by_extent};
ghost use Rattle.xs_meaning.specs.Palettes.{Dropped};
ghost use Rattle.xs_meaning.specs.RowValues.{by_points};
ghost use Rattle.xs_meaning.specs.Walk.{sheet_at};
ghost use Rattle.xs_pixel.specs.Picture.{Pictures};
ghost use Rattle.xs_pixel.specs.Points.{Point};
ghost use Rattle.xs_scene.specs.Records.{SceneRecord};
ghost use Rattle.xs_step.specs.declared.spot.Spot.{Spot};
ghost use Rattle.xs_step.specs.Readings.{answer_at, step_by};
ghost use Rattle.xs_step.specs.Spots.{spot};
ghost use Rattle.xs_step.specs.Steps.{step_of};
ghost use Rattle.xs_step.specs.Ways.{WaysEnd};

use crate::spot::{At, LONGEST_WAY};

/// What a spot is read as is one step over what other spots are read as: its pixels; its expression, which
/// is so one function of the sheet, the row, column or node, the row number, the dropped styles and the
/// offset; and how far it reaches.
pub fn spots_are_read_step_by_step()
    ensures points { (s : SceneRecord) (pictures : Pictures) → AllEnd s.sheets → (p : Spot) (f : Dropped) (q : Point)
        → answer_at (by_points s pictures) s p f q
        ≡ step_by (by_points s pictures) (answer_at (by_points s pictures) s) p f (step_of s p) q }
    ensures offsets { (s : SceneRecord) → AllEnd s.sheets → (p : Spot) (f : Dropped) (o : Point)
        → answer_at (by_offsets s) s p f o
        ≡ step_by (by_offsets s) (answer_at (by_offsets s) s) p f (step_of s p) o }
    ensures extents { (s : SceneRecord) → AllEnd s.sheets → (p : Spot) (f : Dropped)
        → answer_at by_extent s p f ≡ step_by by_extent (answer_at by_extent s) p f (step_of s p) }
{}

/// The ways from spot to spot end.
pub fn ways_end()
    ensures { (s : SceneRecord) → AllEnd s.sheets
        → ((k : ℕ) → length (sheet_at s.sheets k).nodes ≤ MOST_NODES)
        → (k row : ℕ) → WaysEnd s LONGEST_WAY (spot k At.Row row) }
{}
