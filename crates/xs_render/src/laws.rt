//! Laws of the plans of scenes, each on a function that does nothing: its contract is the law.

ghost use Rattle.std.specs.Prelude.{◌≡◌, ◌<◌, ◌≤◌, ◌+◌, ◌-◌, ℕ, Option, Some, is_some, map};
ghost use Rattle.std.specs.List.{range_with_len};
ghost use Rattle.xs_base.specs.Listed.{is_listed};
ghost use Rattle.xs_base.specs.Sections.{section_rows};
ghost use Rattle.xs_base.specs.Sections.{sections_in as sections_of_rows};
ghost use Rattle.xs_pixel.specs.Picture.{Pictures};
ghost use Rattle.xs_raster.specs.Bitmap.{Bitmap, bitmap};
ghost use Rattle.xs_rawfile.specs.Frame.{frame_file_of};
ghost use Rattle.xs_rawfile.specs.Held.{Held, slot_in};
ghost use Rattle.xs_scene.specs.Records.{SceneRecord};
ghost use Rattle.xs_meaning.specs.RowValues.{frame_of};
ghost use Rattle.xs_plan.specs.Record.{PlanRecord, rows_in};
ghost use Rattle.xs_plan.specs.Sections.{sections_in};
ghost use Rattle.xs_plan.specs.Needed.{held, needs};
ghost use Rattle.xs_frames.specs.Frames.{ShowsRow};
ghost use Rattle.xs_render.specs.Progress.{AreHeld, row_at, rows_of_section};
ghost use Rattle.xs_render.specs.Scenes.{ShowsScene, AreOf, IsFrameOf, area_of};

use xs_demand::images::the_root_of_a_tile_has_the_rows_pixels;
use xs_demand::shown::a_shown_plan_has_what_is_counted;
use xs_meaning::rules::frames_go_row_by_row;
use xs_plan::laws::drawings_are_held_while_they_are_needed;

/// Where an image shows a row of a scene's plan on each tile, its frame file is that of the row in the scene. Rows count
/// from 0 in the plan, which begins with row `from` of the scene.
pub fn frames_by_demand_are_those_of_the_scene()
    ensures { (s : SceneRecord) (pictures : Pictures) (from rows row : ℕ) (p : PlanRecord) (told : Option Pictures)
        (image : Bitmap) → AreOf s pictures → ShowsScene s from rows p → row < rows → IsFrameOf s p image
        → told ≡ Some pictures → ShowsRow told p row image
        → frame_file_of image ≡ frame_file_of (bitmap (area_of s) (frame_of s pictures (from + row))) }
{
    frames_go_row_by_row();
    the_root_of_a_tile_has_the_rows_pixels();
}

/// Where just those drawings are held that are held in a section, the drawings that the section needs are held.
pub fn a_section_has_its_drawings()
    ensures { (p : PlanRecord) (s : ℕ) (h : Held) → s < sections_in p
        → ((d : ℕ) → is_some (slot_in h d) ≡ is_listed (held p s) d) → AreHeld h (needs p s) }
{
    drawings_are_held_while_they_are_needed();
}

/// The plan of a range of a scene's rows has as many rows and sections as the range, and the rows of its sections are
/// those of the range's sections.
pub fn sections_of_a_plan_are_those_of_its_rows()
    ensures rows { (s : SceneRecord) (from rows : ℕ) (p : PlanRecord) → ShowsScene s from rows p → rows_in p ≡ rows }
    ensures sections { (s : SceneRecord) (from to : ℕ) (p : PlanRecord) → from ≤ to
        → ShowsScene s from (to + 1 - from) p → sections_in p ≡ sections_of_rows from to }
    ensures section { (s : SceneRecord) (from to : ℕ) (p : PlanRecord) → from ≤ to
        → ShowsScene s from (to + 1 - from) p → (n : ℕ)
        → section_rows from to n ≡ map (λ i. from + row_at n i) (range_with_len 0 (rows_of_section p n)) }
{
    a_shown_plan_has_what_is_counted();
}
