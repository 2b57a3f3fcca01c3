//! A library whose calls are timed.

use crate::watch::Watch;
use std::alloc::Global;
use std::rt::Clock;
use xs_outside::{Fetched, Library};

/// A library that answers what another one answers, with the time of its calls.
#[derive(Drop)]
pub struct TimedLibrary<'a, L: Library, R: Clock> {
    inner: L,
    watch: Watch<'a, R>,
}

impl<'a, L: Library, R: Clock> TimedLibrary<'a, L, R> {
    /// This library, with no time yet.
    pub fn new(inner: L, rt: &'a R) -> TimedLibrary<'a, L, R> {
        TimedLibrary {
            inner,
            watch: Watch::new(rt),
        }
    }

    /// The time of the calls, in nanoseconds.
    pub fn nanoseconds(&self) -> u64 {
        self.watch.nanoseconds()
    }
}

impl<'a, L: Library, R: Clock> Library for TimedLibrary<'a, L, R> {
    ghost files = { λ l. L.files l.inner };

    ghost asked = { λ l. L.asked l.inner };

    ghost faults = { λ l. L.faults l.inner };

    fn get(&mut self, alloc: Global, name: &str, limit: u64) -> Fetched {
        let start = self.watch.start();
        let answer = self.inner.get(alloc, name, limit);
        self.watch.stop(start);
        answer
    }
}
