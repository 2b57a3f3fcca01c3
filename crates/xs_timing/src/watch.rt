//! A stop watch.

use std::fmt;
use std::rt::Clock;
use std::time::Instant;

/// The time of several spans together. A span of which the clock fails to tell the start or the end counts nothing.
#[derive(Drop)]
pub struct Watch<'a, R: Clock> {
    rt: &'a R,
    nanoseconds: u64,
}

impl<'a, R: Clock> Watch<'a, R> {
    /// A watch over a clock, with no span yet.
    pub fn new(rt: &'a R) -> Watch<'a, R> {
        Watch { rt, nanoseconds: 0 }
    }

    /// The start of a span.
    pub fn start(&self) -> Option<Instant> {
        match Instant::now(self.rt) {
            Ok(start) => Some(start),
            Err(_) => None,
        }
    }

    /// Adds the span from a start to now.
    pub fn stop(&mut self, start: Option<Instant>) {
        let Some(start) = start else {
            return;
        };
        let Ok(time) = start.elapsed(self.rt) else {
            return;
        };
        self.nanoseconds = self
            .nanoseconds
            .saturating_add(time.as_secs().saturating_mul(1_000_000_000))
            .saturating_add(u64::from(time.subsec_nanos()));
    }

    /// The time of the spans, in nanoseconds.
    pub fn nanoseconds(&self) -> u64 {
        self.nanoseconds
    }
}

/// So many thousandths, shown as a number with three places.
#[derive(Clone, Copy, Debug)]
pub struct Thousandths(pub u64);

impl fmt::Display for Thousandths {
    fn fmt<W: fmt::Write>(&self, f: &mut fmt::Formatter<W>) -> fmt::Result {
        write!(f, "{}.{:03}", self.0 / 1000, self.0 % 1000)
    }
}

/// Nanoseconds as milliseconds.
pub fn milliseconds(nanoseconds: u64) -> Thousandths {
    Thousandths(nanoseconds / 1000)
}
