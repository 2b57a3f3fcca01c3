//! Laws of how far spots look.
ghost use Rattle.std.specs.Prelude.{◌≡◌, is_none, unwrap_or};
ghost use Rattle.xs_meaning.specs.Ends.{AllEnd};
ghost use Rattle.xs_meaning.specs.Expressions.{by_offsets, is_clear, reach_of};
ghost use Rattle.xs_meaning.specs.Palettes.{Dropped};
ghost use Rattle.xs_pixel.specs.Points.{Point};
ghost use Rattle.xs_scene.specs.Records.{SceneRecord};
ghost use Rattle.xs_step.specs.declared.spot.Spot.{Spot};
ghost use Rattle.xs_step.specs.Readings.{answer_at};
ghost use Rattle.xs_step.specs.Steps.{step_of};
ghost use Rattle.xs_extent.specs.Extent.{extent_at, extent_by};

use xs_meaning::expressions::clear_and_reach_know_no_offset;

/// Whether the expression of a spot is clear, and how far it reaches, know neither its offset nor the styles that
/// are dropped, and are told step by step.
pub fn extents_know_neither_offset_nor_filters()
    ensures clear { (s : SceneRecord) (p : Spot) (f : Dropped) (o : Point)
        → is_clear (answer_at (by_offsets s) s p f o) ≡ is_none (extent_at s p) }
    ensures reach { (s : SceneRecord) (p : Spot) (f : Dropped) (o : Point)
        → reach_of (answer_at (by_offsets s) s p f o) ≡ unwrap_or (extent_at s p) 0 }
    ensures steps { (s : SceneRecord) → AllEnd s.sheets → (p : Spot)
        → extent_at s p ≡ extent_by s p (step_of s p) }
{
    clear_and_reach_know_no_offset();
}
