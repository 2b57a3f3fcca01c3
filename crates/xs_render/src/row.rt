ghost use Rattle.std.specs.Prelude.{◌≡◌, ◌<◌, ◌+◌, ℕ, List, Some, OnOk};
ghost use Rattle.xs_pixel.specs.Picture.{Pictures};
ghost use Rattle.xs_raster.specs.Bitmap.{bitmap};
ghost use Rattle.xs_rawfile.specs.Frame.{frame_file_of};
ghost use Rattle.xs_scene.specs.Records.{SceneRecord};
ghost use Rattle.xs_meaning.specs.RowValues.{frame_of};
ghost use Rattle.xs_frames.specs.Rows.{MayGather};
ghost use Rattle.xs_frames.specs.Frames.{ShowsRow};
ghost use Rattle.xs_render.specs.Progress.{IsRendered, row_at, rows_of_section};
ghost use Rattle.xs_render.specs.Computed.{IsRecorded};
ghost use Rattle.xs_render.specs.Scenes.{ShowsScene, AreOf, area_of};

use crate::laws::frames_by_demand_are_those_of_the_scene;
use crate::section::look_over;
use xs_base::Memory;
use xs_base::limits::SECTION_ROWS;
use xs_core::Desk;
use xs_frames::Frame;
use xs_frames::laws::a_row_has_the_reads_of_its_tiles;
use xs_pixel::Film;
use xs_plan::Plan;
use xs_worker::laws::rows_of_a_section_may_be_gathered_in_any_order;

/// Makes the next row of a section that is made the row of a frame. Rows count from 0 in the section. After an error,
/// which is want of memory, the frame is of no more use.
pub fn render_row<K: Film, D: Desk<K>>(
    p: &Plan,
    desk: &mut D,
    frame: &mut Frame<K>,
    s: u32,
    i: u32,
) -> Result<(), Memory>
    requires plan { D.plan desk.old ≡ p.now }
    requires frame { p.now ≡ frame.old.plan }
    requires there { i < rows_of_section p.now s }
    requires rendered { IsRendered p.now s i (D.view desk.old) }
    ensures plan { D.plan desk.new ≡ p.now }
    ensures frame { frame.new.plan ≡ frame.old.plan }
    ensures area { frame.new.image.area ≡ frame.old.image.area }
    ensures rendered { OnOk result (IsRendered p.now s (i + 1) (D.view desk.new)) }
    ensures home { OnOk result ((D.view desk.new).home ≡ (D.view desk.old).home) }
    ensures shows { OnOk result (ShowsRow K.pictures p.now (row_at s i) frame.new.image) }
    ensures recorded { OnOk result ((computed : List ℕ) → IsRecorded (D.view desk.old) computed
        → IsRecorded (D.view desk.new) computed) }
{
    // what may be relied on in a plan
    p.aliases();
    // that it is a number says that the row is
    let _all = p.rows();
    may_gather(p, desk, s, i);
    a_row_has_the_reads_of_its_tiles();
    rows_of_a_section_may_be_gathered_in_any_order();
    match frame.advance(p, desk, s * SECTION_ROWS + i) {
        Ok(()) => Ok(()),
        Err(Memory) => Err(Memory),
    }
}

/// The bytes of a frame that shows a row of a plan: where it is the plan of a scene's rows, the file of the row's frame
/// in the scene. Rows count from 0 in the plan.
pub fn row_bytes<'a, K: Film>(p: &Plan, frame: &'a Frame<K>, row: u32) -> &'a [u8]
    requires plan { p.now ≡ frame.now.plan }
    requires shows { ShowsRow K.pictures p.now row frame.now.image }
    ensures file { result.now ≡ frame_file_of frame.now.image }
    ensures scene { (s : SceneRecord) (pictures : Pictures) (from rows : ℕ) → K.pictures ≡ Some pictures
        → AreOf s pictures → ShowsScene s from rows p.now → row < rows
        → frame.now.image.area ≡ area_of s → result.now ≡ frame_file_of (bitmap (area_of s) (frame_of s pictures (from + row))) }
{
    frames_by_demand_are_those_of_the_scene();
    frame.bytes()
}

/// The next row of a section that is made may be gathered.
fn may_gather<K: Film, D: Desk<K>>(p: &Plan, desk: &D, s: u32, i: u32)
    requires plan { D.plan desk.now ≡ p.now }
    requires there { i < rows_of_section p.now s }
    requires rendered { IsRendered p.now s i (D.view desk.now) }
    ensures { MayGather p.now (row_at s i) (D.view desk.now) }
{
    // what may be relied on in a plan
    p.aliases();
    look_over(desk);
    rows_of_a_section_may_be_gathered_in_any_order();
}
