//! The frames of a section's rows.

ghost use Rattle.std.specs.Prelude.{◌≡◌, ◌<◌, ◌≤◌, ◌+◌, ◌*◌, ℕ, List, IfOk, OnOk, string_bytes};
ghost use Rattle.xs_base.specs.declared.limits.TheConstants.{LAST_ROW};
ghost use Rattle.xs_base.specs.Sections.{section_rows};
ghost use Rattle.xs_levels.specs.Films.{film_of};
ghost use Rattle.xs_levels.specs.Table.{table_of};
ghost use Rattle.xs_plan.specs.Record.{rows_in};
ghost use Rattle.xs_frames.specs.Frames.{ShowsRow};
ghost use Rattle.xs_render.specs.Computed.{IsRecorded};
ghost use Rattle.xs_render.specs.Progress.{IsReady, IsRendered, row_at, rows_of_section};
ghost use Rattle.xs_render.specs.Scenes.{ShowsScene, area_of};
ghost use Rattle.xs_top.specs.Causes.{answer_of, Fails};
ghost use Rattle.xs_top.specs.Drawings.{pictures_of};
ghost use Rattle.xs_top.specs.Frames.{frame_name_of, frame_at};
ghost use Rattle.xs_top.specs.Leaves.{Keeps};
ghost use Rattle.xs_top.specs.Outcome.{placing, placing_rows};
ghost use Rattle.xs_top.specs.Runs.{Does};

use crate::outside::Outside;
use crate::status::Status;
use std::alloc::Global;
use xs_base::Memory;
use xs_base::limits::SECTION_ROWS;
use xs_check::GoodScene;
use xs_core::Desk;
use xs_frames::Frame;
use xs_levels::laws::pictures_of_files_are_coloured_as_written;
use xs_pixel::Film;
use xs_plan::Plan;
use xs_render::{
    a_section_is_rendered, render_row, row_bytes, sections_of_a_plan_are_those_of_its_rows,
};
use xs_scene::Name;

/// The name of the frame of a row: the base, a dot, the row in four digits and `.xfr`.
#[tactic(auto, unfolding(crate::specs::Frames::frame_name_of))]
fn frame_name(alloc: Global, base: &Name, row: u32) -> Result<String, Memory>
    ensures { IfOk result (λ name. string_bytes name ≡ frame_name_of base.now row) }
{
    let base = base.text();
    let thousands = row / 1000;
    let hundreds = row / 100 % 10;
    let tens = row / 10 % 10;
    let ones = row % 10;
    Ok(format!(in alloc; "{base}.{thousands}{hundreds}{tens}{ones}.xfr")?)
}

/// Puts a frame that shows a row of a scene's plan on the shelf. Rows count from 0 in the plan, which begins with row
/// `from` of the scene.
fn place_row<K: Film, O: Outside>(
    alloc: Global,
    good: &GoodScene,
    p: &Plan,
    frame: &Frame<K>,
    from: u32,
    row: u32,
    base: &Name,
    outside: &mut O,
) -> Result<(), Status>
    requires film { K.pictures ≡ film_of (O.view outside.old).seen.files (table_of good.now) }
    requires plan { p.now ≡ frame.now.plan }
    requires area { frame.now.image.area ≡ area_of good.now }
    requires scene { ShowsScene good.now from (rows_in p.now) p.now }
    requires there { row < rows_in p.now }
    requires shows { ShowsRow K.pictures p.now row frame.now.image }
    requires range { from + rows_in p.now ≤ LAST_ROW + 1 }
    ensures did { Does (λ files. placing (frame_at good.now (pictures_of files good.now) base.now (from + row)))
        (O.view outside.old) (O.view outside.new) result }
    ensures keeps { Keeps (O.view outside.old) (O.view outside.new) (answer_of result) }
    ensures fails { Fails result }
{
    pictures_of_files_are_coloured_as_written();
    // the numbers of a scene are in their ranges
    good.scene().in_range();
    let name = frame_name(alloc, base, from + row)?;
    let bytes = row_bytes(p, frame, row);
    outside.place(alloc, name.as_str(), bytes)
}

/// Gathers the rows of a section that is made, and puts their frames on the shelf, in order. After them the next
/// section can be made.
pub(crate) fn place_rows<K: Film, D: Desk<K>, O: Outside>(
    alloc: Global,
    good: &GoodScene,
    p: &Plan,
    s: u32,
    from: u32,
    base: &Name,
    desk: &mut D,
    frame: &mut Frame<K>,
    outside: &mut O,
) -> Result<(), Status>
    requires film { K.pictures ≡ film_of (O.view outside.old).seen.files (table_of good.now) }
    requires plan { D.plan desk.old ≡ p.now }
    requires frame { p.now ≡ frame.old.plan }
    requires area { frame.old.image.area ≡ area_of good.now }
    requires scene { ShowsScene good.now from (rows_in p.now) p.now }
    requires range { from + rows_in p.now ≤ LAST_ROW + 1 }
    requires there { s * SECTION_ROWS < rows_in p.now }
    requires rendered { IsRendered p.now s 0 (D.view desk.old) }
    ensures did { (to : ℕ) → from + rows_in p.now ≡ to + 1
        → Does (λ files. placing_rows good.now (pictures_of files good.now) base.now (section_rows from to s))
        (O.view outside.old) (O.view outside.new) result }
    ensures keeps { Keeps (O.view outside.old) (O.view outside.new) (answer_of result) }
    ensures fails { Fails result }
    ensures plan { D.plan desk.new ≡ p.now }
    ensures home { OnOk result ((D.view desk.new).home ≡ (D.view desk.old).home) }
    ensures frame { frame.new.plan ≡ frame.old.plan }
    ensures area { frame.new.image.area ≡ frame.old.image.area }
    ensures ready { OnOk result (IsReady p.now (s + 1) (D.view desk.new)) }
    ensures recorded { OnOk result ((computed : List ℕ) → IsRecorded (D.view desk.old) computed
        → IsRecorded (D.view desk.new) computed) }
{
    sections_of_a_plan_are_those_of_its_rows();
    let count = SECTION_ROWS.min(p.rows() - s * SECTION_ROWS);
    for i in 0..count {
        render_row(p, desk, frame, s, i)?;
        place_row(
            alloc,
            good,
            p,
            frame,
            from,
            s * SECTION_ROWS + i,
            base,
            outside,
        )?;
    }
    a_section_is_rendered(p, desk, s);
    Ok(())
}
