ghost use Rattle.std.specs.Prelude.{◌≡◌, ◌<◌, ◌*◌, true, OnOk, OnErr};
ghost use Rattle.xs_plan.specs.Record.{rows_in};
ghost use Rattle.xs_core.specs.Views.{DeskOk};
ghost use Rattle.xs_worker.specs.Sections.{IsBegun, IsDone, AreUngathered};
ghost use Rattle.xs_render.specs.Making.{MakesSection, MakesPart};
ghost use Rattle.xs_sections.specs.Drawn.{AreAllDrawn};

use std::alloc::Global;
use xs_base::Memory;
use xs_base::limits::SECTION_ROWS;
use xs_bench::Bench;
use xs_core::Desk;
use xs_pixel::Film;
use xs_plan::Plan;
use xs_plan::laws::sections_need_the_drawings_of_their_aliases;
use xs_rawfile::Drawings;
use xs_render::make_section;

/// Tells what a seat keeps.
pub(crate) fn look_over<K: Film, D: Desk<K>>(desk: &D)
    ensures { DeskOk (D.plan desk.now) (D.view desk.now) }
{
    let _ = desk;
}

/// Makes all that comes first in a section at a seat that is alone, where the drawing of each alias of the plan is held.
pub fn lead<K: Film, D: Desk<K>, B: Bench>(
    alloc: Global,
    p: &Plan,
    desk: &mut D,
    bench: &mut B,
    d: &Drawings<K>,
    s: u32,
) -> Result<(), Memory>
    requires plan { D.plan desk.old ≡ p.now }
    requires there { s * SECTION_ROWS < rows_in p.now }
    requires chief { (D.view desk.old).number ≡ 0 }
    requires alone { (D.view desk.old).solo ≡ true }
    requires begun { IsBegun p.now s (D.view desk.old) }
    requires drawn { AreAllDrawn p.now d.now }
    ensures plan { D.plan desk.new ≡ p.now }
    ensures alone { OnOk result ((D.view desk.new).solo ≡ true) }
    ensures number { OnOk result ((D.view desk.new).number ≡ (D.view desk.old).number) }
    ensures done { OnOk result (IsDone p.now s (D.view desk.new)) }
    ensures ungathered { OnOk result (AreUngathered p.now s (D.view desk.new)) }
    ensures makes { OnOk result (MakesSection p.now s (D.view desk.old) (D.view desk.new) (B.made bench.old)
        (B.made bench.new)) }
    ensures part { OnErr result (MakesPart (D.view desk.old) (D.view desk.new) (B.made bench.old) (B.made bench.new)) }
{
    sections_need_the_drawings_of_their_aliases();
    match make_section(alloc, p, s, d, desk, bench) {
        Ok(()) => Ok(()),
        Err(Memory) => Err(Memory),
    }
}
