ghost use Rattle.std.specs.Prelude.{◌≡◌, ◌<◌, ◌≤◌, ◌+◌, ◌/◌, ◌↔◌, ℕ, true, List, IfOk, OnOk, length};
ghost use Rattle.std.specs.List.{Contains};
ghost use Rattle.xs_base.specs.declared.limits.TheConstants.{SECTION_ROWS};
ghost use Rattle.xs_plan.specs.Record.{rows_in};
ghost use Rattle.xs_plan.specs.Reads.{root_read_of};
ghost use Rattle.xs_plan.specs.Sections.{live_after};
ghost use Rattle.xs_core.specs.Views.{IsHeld, entries};
ghost use Rattle.xs_frames.specs.Rows.{MayGather, Serves};
ghost use Rattle.xs_frames.specs.Frames.{ShowsRow};
ghost use Rattle.xs_worker.specs.Sections.{IsBegun, IsDone, AreUngathered};
ghost use Rattle.xs_sections.specs.Orders.{IsOrder};

use crate::section::look_over;
use xs_base::Memory;
use xs_core::Desk;
use xs_frames::laws::a_row_has_the_reads_of_its_tiles;
use xs_frames::{Frame, Gather};
use xs_pixel::Film;
use xs_plan::Plan;
use xs_raster::Raster;
use xs_worker::laws::{
    rows_of_a_section_may_be_gathered_in_any_order, what_is_held_after_a_section_is_read_later,
};

/// Tells that a row of a section that is done may be gathered.
fn may_gather<K: Film, D: Desk<K>>(p: &Plan, desk: &D, s: u32, row: u32)
    requires plan { D.plan desk.now ≡ p.now }
    requires chief { (D.view desk.now).number ≡ 0 }
    requires alone { (D.view desk.now).solo ≡ true }
    requires done { IsDone p.now s (D.view desk.now) }
    requires row { row < rows_in p.now }
    requires here { row / SECTION_ROWS ≡ s }
    requires unserved { (tile : ℕ) → tile < length p.now.tiles
        → entries (root_read_of p.now row tile) (D.view desk.now).served ≡ 0 }
    ensures { MayGather p.now row (D.view desk.now) }
{
    // what may be relied on in a plan
    p.aliases();
    look_over(desk);
    rows_of_a_section_may_be_gathered_in_any_order();
}

/// Gathers a row of a section that is done into a frame.
fn gather_row<K: Film, D: Desk<K>>(
    p: &Plan,
    desk: &mut D,
    frame: &mut Frame<K>,
    s: u32,
    row: u32,
) -> Result<(), Memory>
    requires plan { D.plan desk.old ≡ p.now }
    requires frame { p.now ≡ frame.old.plan }
    requires chief { (D.view desk.old).number ≡ 0 }
    requires alone { (D.view desk.old).solo ≡ true }
    requires done { IsDone p.now s (D.view desk.old) }
    requires row { row < rows_in p.now }
    requires here { row / SECTION_ROWS ≡ s }
    requires unserved { (tile : ℕ) → tile < length p.now.tiles
        → entries (root_read_of p.now row tile) (D.view desk.old).served ≡ 0 }
    ensures plan { D.plan desk.new ≡ p.now }
    ensures frame { frame.new.plan ≡ frame.old.plan }
    ensures serves { OnOk result (Serves p.now row (length p.now.tiles) (D.view desk.old) (D.view desk.new)) }
    ensures done { OnOk result (IsDone p.now s (D.view desk.new)) }
    ensures shows { OnOk result (ShowsRow K.pictures p.now row frame.new.image) }
{
    // what may be relied on in a plan
    p.aliases();
    may_gather(p, desk, s, row);
    a_row_has_the_reads_of_its_tiles();
    rows_of_a_section_may_be_gathered_in_any_order();
    match frame.advance(p, desk, row) {
        Ok(()) => Ok(()),
        Err(Memory) => Err(Memory),
    }
}

/// Gathers a row of a section that is done into a raster of its own, the first of its rows.
pub fn gather_alone<K: Film, D: Desk<K>>(
    p: &Plan,
    desk: &mut D,
    mut gather: Gather,
    s: u32,
    row: u32,
) -> Result<Raster, Memory>
    requires plan { D.plan desk.old ≡ p.now }
    requires gather { p.now ≡ gather.plan }
    requires its { gather.row ≡ row }
    requires chief { (D.view desk.old).number ≡ 0 }
    requires alone { (D.view desk.old).solo ≡ true }
    requires done { IsDone p.now s (D.view desk.old) }
    requires ungathered { AreUngathered p.now s (D.view desk.old) }
    requires row { row < rows_in p.now }
    requires here { row / SECTION_ROWS ≡ s }
    ensures plan { D.plan desk.new ≡ p.now }
    ensures shows { IfOk result (ShowsRow K.pictures p.now row) }
{
    may_gather(p, desk, s, row);
    gather.advance(p, desk)?;
    Ok(gather.into_raster())
}

/// Gathers the rows of a section that is done into a frame, one after another, in the order that is told. After it the
/// next section is begun, and the tiles that are held are exactly those that a later section reads.
pub fn gather<K: Film, D: Desk<K>>(
    p: &Plan,
    desk: &mut D,
    frame: &mut Frame<K>,
    s: u32,
    rows: &[u32],
) -> Result<(), Memory>
    requires plan { D.plan desk.old ≡ p.now }
    requires frame { p.now ≡ frame.old.plan }
    requires chief { (D.view desk.old).number ≡ 0 }
    requires alone { (D.view desk.old).solo ≡ true }
    requires done { IsDone p.now s (D.view desk.old) }
    requires ungathered { AreUngathered p.now s (D.view desk.old) }
    requires rows { IsOrder p.now s rows.now }
    ensures plan { D.plan desk.new ≡ p.now }
    ensures frame { frame.new.plan ≡ frame.old.plan }
    ensures chief { OnOk result ((D.view desk.new).number ≡ 0) }
    ensures alone { OnOk result ((D.view desk.new).solo ≡ true) }
    ensures begun { OnOk result (IsBegun p.now (s + 1) (D.view desk.new)) }
    ensures held { OnOk result ((k : ℕ) → IsHeld p.now (D.view desk.new) k ↔ Contains (live_after p.now s) k) }
{
    // what may be relied on in a plan
    p.aliases();
    what_is_held_after_a_section_is_read_later();
    a_row_has_the_reads_of_its_tiles();
    for i in 0..rows.len() {
        match gather_row(p, desk, frame, s, rows[i]) {
            Ok(()) => {}
            Err(Memory) => return Err(Memory),
        }
    }
    Ok(())
}
