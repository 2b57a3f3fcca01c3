//! Times between two looks at the clock.

use std::io;
use std::rt::Clock;
use std::time::Instant;

/// The nanoseconds since a time.
pub(crate) fn nanoseconds_since<R: Clock>(rt: &R, start: Instant) -> io::Result<u64> {
    let time = start.elapsed(rt)?;
    Ok(
        time.as_secs()
            .saturating_mul(1_000_000_000)
            .saturating_add(u64::from(time.subsec_nanos())),
    )
}

/// Thousandths of a nanosecond for each of so many things.
pub(crate) fn share(nanoseconds: u64, things: u32) -> u64 {
    nanoseconds.saturating_mul(1000) / u64::from(things.max(1))
}
