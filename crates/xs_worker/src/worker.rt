ghost use Rattle.std.specs.Prelude.{◌≡◌, ◌<◌, ℕ, Some, None, List, [], Ok, IfOk, length, slice_index};
ghost use Rattle.xs_worker.specs.Claims.{AreDrawn};
ghost use Rattle.xs_worker.specs.Advances.{Standing, fresh_worker, StandsAt, AdvanceTells};

use crate::advanced::Advanced;
use crate::reads::tell_reads;
use crate::stack::Stack;
use crate::step::Step;
use crate::work::Work;
use std::alloc::Global;
use std::marker::Model;
use xs_base::Memory;
use xs_bench::Bench;
use xs_core::Desk;
use xs_pixel::Film;
use xs_plan::Plan;
use xs_rawfile::Drawings;

/// Leads its targets to ready, one after another, through a seat and a bench. Contracts see it as its targets, how
/// many of them it knows to be ready, what it has claimed, and for whose sake it gave up.
#[derive(Debug, Drop)]
pub struct Worker {
    work: Work,
    gone: Option<u32>,
}

impl Model for Worker {
    ghost use Rattle.xs_worker.specs.Advances.{Standing, standing};

    ghost Value = { Standing };

    ghost view = { λ w. standing w.work.targets.items w.work.next w.work.stack.items w.gone };
}

impl Worker {
    /// A worker that has claimed nothing.
    pub fn new(alloc: Global, targets: Vec<u32>) -> Result<Worker, Memory>
        ensures { IfOk result (λ w. w ≡ fresh_worker targets.items) }
    {
        let mut stack = Stack::new(alloc);
        stack.make_room()?;
        Ok(Worker {
            work: Work {
                targets,
                next: 0,
                stack,
            },
            gone: None,
        })
    }

    /// Goes on until every target is ready, or none can be led on now. The drawings are held of the aliases that the
    /// targets reach and that the seat does not know to be ready. After Memory or Lost all that was claimed is given
    /// up, and every later answer is Lost.
    pub fn advance<K: Film, D: Desk<K>, B: Bench>(
        &mut self,
        alloc: Global,
        p: &Plan,
        desk: &mut D,
        bench: &mut B,
        d: &Drawings<K>,
    ) -> Result<Advanced, Memory>
        requires plan { D.plan desk.old ≡ p.now }
        requires stands { StandsAt p.now self.old (D.view desk.old) }
        requires drawn { AreDrawn p.now self.old.targets self.old.stack (D.view desk.old) d.now }
        ensures plan { D.plan desk.new ≡ p.now }
        ensures targets { self.new.targets ≡ self.old.targets }
        ensures stands { StandsAt p.now self.new (D.view desk.new) }
        ensures told { AdvanceTells p.now self.old (D.view desk.old) (B.made bench.old)
            result self.new (D.view desk.new) (B.made bench.new) }
        ensures nothing { length self.old.targets ≡ 0 → result ≡ Ok Advanced.Finished }
    {
        if let Some(k) = self.gone {
            return Ok(Advanced::Lost(k));
        }
        tell_reads(p);
        match self.work.run(alloc, p, desk, bench, d) {
            Step::Blocked(k) => Ok(Advanced::Blocked(k)),
            Step::Lost(k) => {
                self.work.give_up(desk);
                self.gone = Some(k);
                Ok(Advanced::Lost(k))
            }
            Step::Short => {
                let last = self.work.give_up(desk);
                self.gone = Some(self.work.lost_after(last));
                Err(Memory)
            }
            Step::Ready => Ok(Advanced::Finished),
            Step::Moved => unreachable!(),
        }
    }
}
