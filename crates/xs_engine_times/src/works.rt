//! Works that are timed.

use crate::clock::{nanoseconds_since, share};
use crate::fault::Fault;
use crate::noise::PIXELS;
use std::rt::Clock;
use std::time::Instant;

/// How often a work is done between two looks at the clock, and how many times that is; the least time counts.
const BATCH: u32 = 16;

const ROUNDS: u32 = 500;

/// A work on a tile that can be done again and again.
pub(crate) trait Work {
    /// Does it once.
    fn run(&mut self) -> Result<(), Fault>;
}

/// The time of a pixel of a batch, in thousandths of a nanosecond.
fn time_batch<R: Clock, W: Work>(rt: &R, work: &mut W) -> Result<u64, Fault> {
    let start = Instant::now(rt)?;
    for _ in 0..BATCH {
        work.run()?;
    }
    Ok(share(nanoseconds_since(rt, start)?, BATCH * PIXELS))
}

/// The least time of a pixel, in thousandths of a nanosecond.
pub(crate) fn least<R: Clock, W: Work>(rt: &R, work: &mut W) -> Result<u64, Fault> {
    let mut least = u64::MAX;
    for _ in 0..ROUNDS {
        least = least.min(time_batch(rt, work)?);
    }
    Ok(least)
}

/// The same for two works, which take turns.
pub(crate) fn least_of_two<R: Clock, V: Work, W: Work>(
    rt: &R,
    first: &mut V,
    second: &mut W,
) -> Result<(u64, u64), Fault> {
    let (mut a, mut b) = (u64::MAX, u64::MAX);
    for _ in 0..ROUNDS {
        a = a.min(time_batch(rt, first)?);
        b = b.min(time_batch(rt, second)?);
    }
    Ok((a, b))
}
