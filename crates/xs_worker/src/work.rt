ghost use Rattle.std.specs.Prelude.{◌≡◌, ◌≢◌, ◌<◌, ℕ, Option, Some, None, List, [], ◌∷◌, length, slice_get, slice_index};
ghost use Rattle.xs_plan.specs.Record.{entry_at};
ghost use Rattle.xs_plan.specs.Reads.{port_read_of};
ghost use Rattle.xs_core.specs.Views.{signed, times, Knows, MayRead};
ghost use Rattle.xs_core.specs.Calls.{Adds, HoldsTile};
ghost use Rattle.xs_worker.specs.Piles.{top_of, below_top, last_or};
ghost use Rattle.xs_worker.specs.Reading.{TellsReads, IsReached, port_reads};
ghost use Rattle.xs_worker.specs.Claims.{tagged, Fits, AreDrawn, IsAble};
ghost use Rattle.xs_worker.specs.Steps.{StepTells};
ghost use Rattle.xs_worker.specs.Advances.{lost_after};

use crate::compute::compute;
use crate::reads::retire_port;
use crate::stack::Stack;
use crate::step::{Computed, Step};
use std::alloc::Global;
use xs_base::Memory;
use xs_bench::Bench;
use xs_core::{Claim, Desk};
use xs_pixel::Film;
use xs_plan::Plan;
use xs_raster::TileRef;
use xs_rawfile::Drawings;

/// What a worker is at: its targets, of which the first `next` are known to be ready, and what it has claimed.
#[derive(Debug, Drop)]
pub(crate) struct Work {
    pub(crate) targets: Vec<u32>,
    pub(crate) next: usize,
    pub(crate) stack: Stack,
}

impl Work {
    /// Claims an alias that stands before all that are claimed; where it was idle, puts it on the stack, on which
    /// room is made first.
    pub(crate) fn fetch<K: Film, D: Desk<K>>(&mut self, desk: &mut D, k: u32) -> Step
        requires tells { TellsReads (D.plan desk.old) }
        requires fits { Fits (D.plan desk.old) self.old.targets.items self.old.stack.items (D.view desk.old) }
        requires reached { IsReached (D.plan desk.old) self.old.targets.items k }
        requires there { k < length (D.plan desk.old).entries }
        requires below { (j : ℕ) → 0 < times j self.old.stack.items → k < j }
        ensures plan { D.plan desk.new ≡ D.plan desk.old }
        ensures same { (self.new.targets.items ≡ self.old.targets.items) × (self.new.next ≡ self.old.next) }
        ensures told { (b : List ℕ)
            → StepTells (D.plan desk.old) self.old.targets.items self.old.stack.items (D.view desk.old) b
            result self.new.stack.items (D.view desk.new) b }
        ensures kept { result ≡ Step.Ready → self.new.stack.items ≡ self.old.stack.items }
        ensures known { result ≡ Step.Ready → Knows (D.view desk.new) k }
    {
        if self.stack.make_room().is_err() {
            return Step::Short;
        }
        match desk.claim(k) {
            Claim::Won => {
                self.stack.push(k);
                Step::Moved
            }
            Claim::Busy => Step::Blocked(k),
            Claim::Ready => Step::Ready,
            Claim::Lost => Step::Lost(k),
        }
    }

    /// Claims the input that the alias on the top reads at a port, if it has the port.
    pub(crate) fn input<K: Film, D: Desk<K>>(
        &mut self,
        p: &Plan,
        desk: &mut D,
        k: u32,
        port: u32,
    ) -> Step
        requires plan { D.plan desk.old ≡ p.now }
        requires tells { TellsReads p.now }
        requires fits { Fits p.now self.old.targets.items self.old.stack.items (D.view desk.old) }
        requires top { top_of self.old.stack.items ≡ Some k }
        ensures plan { D.plan desk.new ≡ p.now }
        ensures same { (self.new.targets.items ≡ self.old.targets.items) × (self.new.next ≡ self.old.next) }
        ensures told { (b : List ℕ)
            → StepTells p.now self.old.targets.items self.old.stack.items (D.view desk.old) b
            result self.new.stack.items (D.view desk.new) b }
        ensures kept { result ≡ Step.Ready → self.new.stack.items ≡ self.old.stack.items }
        ensures known { result ≡ Step.Ready → (i : ℕ) → slice_get (entry_at p.now.entries k).inputs port ≡ Some i
            → Knows (D.view desk.new) i }
    {
        match p.input(k, port) {
            Some(i) => self.fetch(desk, i),
            None => Step::Ready,
        }
    }

    /// Claims the inputs that the alias on the top reads, that at port 0 first, until one is not known to be ready.
    pub(crate) fn inputs<K: Film, D: Desk<K>>(&mut self, p: &Plan, desk: &mut D, k: u32) -> Step
        requires plan { D.plan desk.old ≡ p.now }
        requires tells { TellsReads p.now }
        requires fits { Fits p.now self.old.targets.items self.old.stack.items (D.view desk.old) }
        requires top { top_of self.old.stack.items ≡ Some k }
        ensures plan { D.plan desk.new ≡ p.now }
        ensures same { (self.new.targets.items ≡ self.old.targets.items) × (self.new.next ≡ self.old.next) }
        ensures told { (b : List ℕ)
            → StepTells p.now self.old.targets.items self.old.stack.items (D.view desk.old) b
            result self.new.stack.items (D.view desk.new) b }
        ensures kept { result ≡ Step.Ready → self.new.stack.items ≡ self.old.stack.items }
        ensures first { result ≡ Step.Ready → (i : ℕ) → slice_get (entry_at p.now.entries k).inputs 0 ≡ Some i
            → Knows (D.view desk.new) i }
        ensures second { result ≡ Step.Ready → (i : ℕ) → slice_get (entry_at p.now.entries k).inputs 1 ≡ Some i
            → Knows (D.view desk.new) i }
    {
        match self.input(p, desk, k, 0) {
            Step::Ready => self.input(p, desk, k, 1),
            step => step,
        }
    }

    /// Puts the tile of the alias on the top, serves its reads at ports and takes it off.
    pub(crate) fn conclude<K: Film, D: Desk<K>>(
        &mut self,
        p: &Plan,
        desk: &mut D,
        k: u32,
        tile: TileRef,
    )
        requires plan { D.plan desk.old ≡ p.now }
        requires tells { TellsReads p.now }
        requires fits { Fits p.now self.old.targets.items self.old.stack.items (D.view desk.old) }
        requires top { top_of self.old.stack.items ≡ Some k }
        requires may { (port e : ℕ) → port_read_of p.now k port ≡ Some e → MayRead p.now (D.view desk.old) e }
        requires value { HoldsTile K.pictures p.now k tile }
        ensures plan { D.plan desk.new ≡ p.now }
        ensures same { (self.new.targets.items ≡ self.old.targets.items) × (self.new.next ≡ self.old.next) }
        ensures told { Adds (D.view desk.old) (D.view desk.new) [] (signed (D.view desk.old).number k ∷ []) []
            (tagged (D.view desk.old).number (port_reads p.now k)) }
        ensures stack { self.new.stack.items ≡ below_top self.old.stack.items }
    {
        desk.finish(k, tile);
        retire_port(p, desk, k, 0);
        retire_port(p, desk, k, 1);
        self.stack.pop();
    }

    /// Computes the tile of the alias on the top, whose inputs are known to be ready.
    pub(crate) fn make<K: Film, D: Desk<K>, B: Bench>(
        &mut self,
        alloc: Global,
        p: &Plan,
        desk: &mut D,
        bench: &mut B,
        d: &Drawings<K>,
        k: u32,
    ) -> Step
        requires plan { D.plan desk.old ≡ p.now }
        requires tells { TellsReads p.now }
        requires fits { Fits p.now self.old.targets.items self.old.stack.items (D.view desk.old) }
        requires top { top_of self.old.stack.items ≡ Some k }
        requires first { (i : ℕ) → slice_get (entry_at p.now.entries k).inputs 0 ≡ Some i
            → Knows (D.view desk.old) i }
        requires second { (i : ℕ) → slice_get (entry_at p.now.entries k).inputs 1 ≡ Some i
            → Knows (D.view desk.old) i }
        requires drawn { AreDrawn p.now self.old.targets.items self.old.stack.items (D.view desk.old) d.now }
        ensures plan { D.plan desk.new ≡ p.now }
        ensures same { (self.new.targets.items ≡ self.old.targets.items) × (self.new.next ≡ self.old.next) }
        ensures told { StepTells p.now self.old.targets.items self.old.stack.items (D.view desk.old) (B.made bench.old)
            result self.new.stack.items (D.view desk.new) (B.made bench.new) }
        ensures never { result ≢ Step.Ready }
    {
        match compute(alloc, p, desk, bench, d, k) {
            Computed::Done(tile) => {
                self.conclude(p, desk, k, tile);
                Step::Moved
            }
            Computed::Turn(i) => Step::Blocked(i),
            Computed::Short => Step::Short,
        }
    }
    /// Leads the alias on the top on: claims an input, or makes it where all inputs are known to be ready.
    pub(crate) fn lead<K: Film, D: Desk<K>, B: Bench>(
        &mut self,
        alloc: Global,
        p: &Plan,
        desk: &mut D,
        bench: &mut B,
        d: &Drawings<K>,
        k: u32,
    ) -> Step
        requires plan { D.plan desk.old ≡ p.now }
        requires tells { TellsReads p.now }
        requires fits { Fits p.now self.old.targets.items self.old.stack.items (D.view desk.old) }
        requires top { top_of self.old.stack.items ≡ Some k }
        requires drawn { AreDrawn p.now self.old.targets.items self.old.stack.items (D.view desk.old) d.now }
        ensures plan { D.plan desk.new ≡ p.now }
        ensures same { (self.new.targets.items ≡ self.old.targets.items) × (self.new.next ≡ self.old.next) }
        ensures told { StepTells p.now self.old.targets.items self.old.stack.items (D.view desk.old) (B.made bench.old)
            result self.new.stack.items (D.view desk.new) (B.made bench.new) }
        ensures never { result ≢ Step.Ready }
    {
        match self.inputs(p, desk, k) {
            Step::Ready => self.make(alloc, p, desk, bench, d, k),
            step => step,
        }
    }

    /// Leads a target on by one step, through the alias on the top where there is one.
    pub(crate) fn step<K: Film, D: Desk<K>, B: Bench>(
        &mut self,
        alloc: Global,
        p: &Plan,
        desk: &mut D,
        bench: &mut B,
        d: &Drawings<K>,
        target: u32,
    ) -> Step
        requires plan { D.plan desk.old ≡ p.now }
        requires tells { TellsReads p.now }
        requires fits { Fits p.now self.old.targets.items self.old.stack.items (D.view desk.old) }
        requires reached { IsReached p.now self.old.targets.items target }
        requires there { target < length p.now.entries }
        requires drawn { AreDrawn p.now self.old.targets.items self.old.stack.items (D.view desk.old) d.now }
        ensures plan { D.plan desk.new ≡ p.now }
        ensures same { (self.new.targets.items ≡ self.old.targets.items) × (self.new.next ≡ self.old.next) }
        ensures told { StepTells p.now self.old.targets.items self.old.stack.items (D.view desk.old) (B.made bench.old)
            result self.new.stack.items (D.view desk.new) (B.made bench.new) }
        ensures ready { result ≡ Step.Ready → Knows (D.view desk.new) target × (self.new.stack.items ≡ []) }
    {
        match self.stack.top() {
            Some(k) => self.lead(alloc, p, desk, bench, d, k),
            None => self.fetch(desk, target),
        }
    }

    /// Gives up all that is claimed, the last first, and answers what was given up last.
    pub(crate) fn give_up<K: Film, D: Desk<K>>(&mut self, desk: &mut D) -> Option<u32>
        requires fits { Fits (D.plan desk.old) self.old.targets.items self.old.stack.items (D.view desk.old) }
        ensures plan { D.plan desk.new ≡ D.plan desk.old }
        ensures same { (self.new.targets.items ≡ self.old.targets.items) × (self.new.next ≡ self.old.next) }
        ensures told { Adds (D.view desk.old) (D.view desk.new) [] []
            (tagged (D.view desk.old).number self.old.stack.items) [] }
        ensures stack { self.new.stack.items ≡ [] }
        ensures fits { Fits (D.plan desk.old) self.old.targets.items self.new.stack.items (D.view desk.new) }
        ensures last { result ≡ last_or None self.old.stack.items }
    {
        let mut last = None;
        'claims: while let Some(k) = self.stack.top() {
            desk.abandon(k);
            self.stack.pop();
            last = Some(k);
        }
        last
    }

    /// The alias that was given up last, or the first target where none was.
    pub(crate) fn lost_after(&self, last: Option<u32>) -> u32
        requires { 0 < length self.now.targets.items }
        ensures { result ≡ lost_after last (slice_index self.now.targets.items 0) }
    {
        match last {
            Some(k) => k,
            None => self.targets[0],
        }
    }

    /// Leads the targets on, one after another, until all are known to be ready or one can't be led on now.
    pub(crate) fn run<K: Film, D: Desk<K>, B: Bench>(
        &mut self,
        alloc: Global,
        p: &Plan,
        desk: &mut D,
        bench: &mut B,
        d: &Drawings<K>,
    ) -> Step
        requires plan { D.plan desk.old ≡ p.now }
        requires tells { TellsReads p.now }
        requires able { IsAble p.now self.old.targets.items self.old.next self.old.stack.items (D.view desk.old) }
        requires drawn { AreDrawn p.now self.old.targets.items self.old.stack.items (D.view desk.old) d.now }
        ensures plan { D.plan desk.new ≡ p.now }
        ensures same { self.new.targets.items ≡ self.old.targets.items }
        ensures able { IsAble p.now self.old.targets.items self.new.next self.new.stack.items (D.view desk.new) }
        ensures told { StepTells p.now self.old.targets.items self.old.stack.items (D.view desk.old) (B.made bench.old)
            result self.new.stack.items (D.view desk.new) (B.made bench.new) }
        ensures never { result ≢ Step.Moved }
        ensures done { result ≡ Step.Ready → self.new.next ≡ length self.old.targets.items }
        ensures some { result ≢ Step.Ready → 0 < length self.old.targets.items }
    {
        'targets: while self.next < self.targets.len() {
            let target = self.targets[self.next];
            match self.step(alloc, p, desk, bench, d, target) {
                Step::Moved => {}
                Step::Ready => self.next += 1,
                step => return step,
            }
        }
        Step::Ready
    }
}
