//! A shelf whose calls are timed.

use crate::watch::Watch;
use std::alloc::Global;
use std::rt::Clock;
use xs_outside::{Put, Shelf};

/// A shelf that does what another one does, with the time of its calls.
#[derive(Drop)]
pub struct TimedShelf<'a, S: Shelf, R: Clock> {
    inner: S,
    watch: Watch<'a, R>,
}

impl<'a, S: Shelf, R: Clock> TimedShelf<'a, S, R> {
    /// This shelf, with no time yet.
    pub fn new(inner: S, rt: &'a R) -> TimedShelf<'a, S, R> {
        TimedShelf {
            inner,
            watch: Watch::new(rt),
        }
    }

    /// The time of the calls, in nanoseconds.
    pub fn nanoseconds(&self) -> u64 {
        self.watch.nanoseconds()
    }
}

impl<'a, S: Shelf, R: Clock> Shelf for TimedShelf<'a, S, R> {
    ghost objects = { λ s. S.objects s.inner };

    ghost faults = { λ s. S.faults s.inner };

    fn put(&mut self, alloc: Global, name: &str, bytes: &[u8]) -> Put {
        let start = self.watch.start();
        let answer = self.inner.put(alloc, name, bytes);
        self.watch.stop(start);
        answer
    }
}
