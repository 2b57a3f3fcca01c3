ghost use Rattle.std.specs.Prelude.{◌≡◌, ◌<◌, ◌*◌, OnOk, OnErr};
ghost use Rattle.xs_plan.specs.Record.{rows_in};
ghost use Rattle.xs_plan.specs.Needed.{needs};
ghost use Rattle.xs_core.specs.Views.{DeskOk};
ghost use Rattle.xs_render.specs.Progress.{IsReady, AreHeld};
ghost use Rattle.xs_render.specs.Making.{MakesSection, MakesPart};

use std::alloc::Global;
use xs_base::Memory;
use xs_base::limits::SECTION_ROWS;
use xs_bench::Bench;
use xs_core::Desk;
use xs_pixel::Film;
use xs_plan::Plan;
use xs_plan::laws::sections_need_the_drawings_of_their_aliases;
use xs_rawfile::Drawings;
use xs_worker::laws::{
    a_section_is_done_when_its_targets_are_ready, new_workers_stand_where_nothing_is_claimed,
    targets_of_a_section_are_its_roots, what_is_won_in_a_section_comes_first_in_it,
    workers_gain_for_their_targets, workers_that_are_alone_finish,
};
use xs_worker::{Advanced, Worker, section_targets};

/// Tells what a seat keeps.
pub(crate) fn look_over<K: Film, D: Desk<K>>(desk: &D)
    ensures { DeskOk (D.plan desk.now) (D.view desk.now) }
{
    let _ = desk;
}

/// Makes all that comes first in a section, each alias once and nothing else, at a seat that is alone. The drawings
/// that the section needs are held. After an error, which is want of memory, a part of it is made and the rest given
/// up; then the bench may have computed one alias more than was made.
pub fn make_section<K: Film, D: Desk<K>, B: Bench>(
    alloc: Global,
    p: &Plan,
    s: u32,
    drawings: &Drawings<K>,
    desk: &mut D,
    bench: &mut B,
) -> Result<(), Memory>
    requires plan { D.plan desk.old ≡ p.now }
    requires there { s * SECTION_ROWS < rows_in p.now }
    requires ready { IsReady p.now s (D.view desk.old) }
    requires drawn { AreHeld drawings.now (needs p.now s) }
    ensures plan { D.plan desk.new ≡ p.now }
    ensures made { OnOk result (MakesSection p.now s (D.view desk.old) (D.view desk.new) (B.made bench.old) (B.made bench.new)) }
    ensures home { OnOk result ((D.view desk.new).home ≡ (D.view desk.old).home) }
    ensures part { OnErr result (MakesPart (D.view desk.old) (D.view desk.new) (B.made bench.old) (B.made bench.new)) }
{
    // what may be relied on in a plan
    p.aliases();
    sections_need_the_drawings_of_their_aliases();
    new_workers_stand_where_nothing_is_claimed();
    targets_of_a_section_are_its_roots();
    what_is_won_in_a_section_comes_first_in_it();
    workers_that_are_alone_finish();
    workers_gain_for_their_targets();
    a_section_is_done_when_its_targets_are_ready();
    look_over(desk);
    let mut worker = Worker::new(alloc, section_targets(alloc, p, s)?)?;
    match worker.advance(alloc, p, desk, bench, drawings) {
        Ok(Advanced::Finished) => {
            look_over(desk);
            Ok(())
        }
        Ok(Advanced::Blocked(_) | Advanced::Lost(_)) => unreachable!(),
        Err(Memory) => {
            look_over(desk);
            Err(Memory)
        }
    }
}
