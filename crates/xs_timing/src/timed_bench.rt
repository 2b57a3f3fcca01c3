//! A bench whose calls are timed.

ghost use Rattle.std.specs.Prelude.{◌≡◌};

use crate::watch::Watch;
use std::alloc::Global;
use std::rt::Clock;
use std::time::Instant;
use xs_base::Memory;
use xs_bench::Bench;
use xs_pixel::Film;
use xs_plan::{Job, Plan};
use xs_raster::Tile;
use xs_rawfile::Drawings;

/// A bench that does what another one does, with the time of its computing by the kinds of jobs.
#[derive(Drop)]
pub struct TimedBench<'a, B: Bench, R: Clock> {
    inner: B,
    /// Of drawings and cards, which read no alias.
    leaves: Watch<'a, R>,
    pairs: Watch<'a, R>,
    blurs: Watch<'a, R>,
}

impl<'a, B: Bench, R: Clock> TimedBench<'a, B, R> {
    /// This bench, with no time yet.
    pub fn new(inner: B, rt: &'a R) -> TimedBench<'a, B, R>
        ensures { result.inner ≡ inner }
    {
        TimedBench {
            inner,
            leaves: Watch::new(rt),
            pairs: Watch::new(rt),
            blurs: Watch::new(rt),
        }
    }

    /// Adds the span of a job from a start to now.
    fn stop(&mut self, job: Job, start: Option<Instant>)
        ensures { self.new.inner ≡ self.old.inner }
    {
        match job {
            Job::Pair(_) => self.pairs.stop(start),
            Job::Blur(_) => self.blurs.stop(start),
            Job::Clear | Job::Leaf { .. } | Job::Tinted { .. } | Job::Card(_) => {
                self.leaves.stop(start)
            }
        }
    }

    /// The time of what reads no alias, in nanoseconds.
    pub fn leaves(&self) -> u64 {
        self.leaves.nanoseconds()
    }

    /// The time of operations on two aliases, in nanoseconds.
    pub fn pairs(&self) -> u64 {
        self.pairs.nanoseconds()
    }

    /// The time of blurs, in nanoseconds.
    pub fn blurs(&self) -> u64 {
        self.blurs.nanoseconds()
    }
}

impl<'a, B: Bench, R: Clock> Bench for TimedBench<'a, B, R> {
    ghost made = { λ bench. B.made bench.inner };

    fn computed(&self) -> &[u32] {
        self.inner.computed()
    }

    fn compute<K: Film>(
        &mut self,
        alloc: Global,
        p: &Plan,
        k: u32,
        a: Option<&Tile>,
        b: Option<&Tile>,
        d: &Drawings<K>,
    ) -> Result<Tile, Memory> {
        let job = p.job(k);
        let start = self.leaves.start();
        let made = self.inner.compute(alloc, p, k, a, b, d);
        self.stop(job, start);
        made
    }
}
