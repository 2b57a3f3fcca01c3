//! All rows of a plan, in order.

ghost use Rattle.std.specs.Prelude.{◌≡◌, ◌<◌, ◌≤◌, ◌+◌, ◌*◌, ℕ, List, [], OnOk, OnErr};
ghost use Rattle.xs_plan.specs.Record.{rows_in};
ghost use Rattle.xs_plan.specs.Sections.{sections_in};
ghost use Rattle.xs_core.specs.Views.{IsFresh, times};
ghost use Rattle.xs_render.specs.Progress.{IsReady, IsRendered, IsOver};
ghost use Rattle.xs_render.specs.Computed.{IsRecorded, HasEachOnce};
ghost use Rattle.xs_sections.specs.Drawn.{AreAllDrawn};

use crate::section::lead;
use std::alloc::Global;
use xs_base::Memory;
use xs_base::limits::SECTION_ROWS;
use xs_bench::Bench;
use xs_core::Desk;
use xs_frames::Frame;
use xs_pixel::Film;
use xs_plan::Plan;
use xs_rawfile::Drawings;
use xs_render::{a_section_is_rendered, all_is_rendered, nothing_is_rendered_yet, render_row};

/// Renders all rows of a plan in order into one frame, at a fresh seat and bench, where the drawing of each alias is
/// held. Each alias is computed once; after an error, which is want of memory, none was computed twice.
pub fn render_all<K: Film, D: Desk<K>, B: Bench>(
    alloc: Global,
    p: &Plan,
    desk: &mut D,
    bench: &mut B,
    d: &Drawings<K>,
    frame: &mut Frame<K>,
) -> Result<(), Memory>
    requires plan { D.plan desk.old ≡ p.now }
    requires frame { p.now ≡ frame.old.plan }
    requires fresh { IsFresh (D.view desk.old) }
    requires new { B.made bench.old ≡ [] }
    requires drawn { AreAllDrawn p.now d.now }
    ensures over { OnOk result (IsOver p.now (D.view desk.new)) }
    ensures each { OnOk result (HasEachOnce p.now (B.made bench.new)) }
    ensures once { OnErr result ((k : ℕ) → times k (B.made bench.new) ≤ 1) }
{
    nothing_is_rendered_yet(p, desk);
    for s in 0..p.sections() {
        match render_section(alloc, p, desk, bench, d, frame, s) {
            Ok(()) => {}
            Err(Memory) => return Err(Memory),
        }
    }
    all_is_rendered(p, desk);
    Ok(())
}

/// Renders a section.
fn render_section<K: Film, D: Desk<K>, B: Bench>(
    alloc: Global,
    p: &Plan,
    desk: &mut D,
    bench: &mut B,
    d: &Drawings<K>,
    frame: &mut Frame<K>,
    s: u32,
) -> Result<(), Memory>
    requires plan { D.plan desk.old ≡ p.now }
    requires frame { p.now ≡ frame.old.plan }
    requires there { s < sections_in p.now }
    requires ready { IsReady p.now s (D.view desk.old) }
    requires recorded { IsRecorded (D.view desk.old) (B.made bench.old) }
    requires drawn { AreAllDrawn p.now d.now }
    ensures plan { D.plan desk.new ≡ p.now }
    ensures frame { frame.new.plan ≡ frame.old.plan }
    ensures ready { OnOk result (IsReady p.now (s + 1) (D.view desk.new)) }
    ensures recorded { OnOk result (IsRecorded (D.view desk.new) (B.made bench.new)) }
    ensures once { OnErr result ((k : ℕ) → times k (B.made bench.new) ≤ 1) }
{
    match lead(alloc, p, desk, bench, d, s) {
        Ok(()) => match render_rows(p, desk, frame, s) {
            Ok(()) => Ok(()),
            Err(Memory) => Err(Memory),
        },
        Err(Memory) => Err(Memory),
    }
}

/// Gathers the rows of a section that is made, in order. After them the next section can be made.
fn render_rows<K: Film, D: Desk<K>>(
    p: &Plan,
    desk: &mut D,
    frame: &mut Frame<K>,
    s: u32,
) -> Result<(), Memory>
    requires plan { D.plan desk.old ≡ p.now }
    requires frame { p.now ≡ frame.old.plan }
    requires there { s * SECTION_ROWS < rows_in p.now }
    requires rendered { IsRendered p.now s 0 (D.view desk.old) }
    ensures plan { D.plan desk.new ≡ p.now }
    ensures frame { frame.new.plan ≡ frame.old.plan }
    ensures ready { OnOk result (IsReady p.now (s + 1) (D.view desk.new)) }
    ensures recorded { OnOk result ((computed : List ℕ) → IsRecorded (D.view desk.old) computed
        → IsRecorded (D.view desk.new) computed) }
{
    let rows = SECTION_ROWS.min(p.rows() - s * SECTION_ROWS);
    for i in 0..rows {
        match render_row(p, desk, frame, s, i) {
            Ok(()) => {}
            Err(Memory) => return Err(Memory),
        }
    }
    a_section_is_rendered(p, desk, s);
    Ok(())
}
