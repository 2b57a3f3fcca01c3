//! The calls of seats at the cache of words.

use std::alloc::Global;
use std::io;
use std::rt::Clock;
use std::thread::Threads;
use xs_cache_threads::least_by_four;
use xs_cache_timing::{Times, chain_plan, least_by_one};
use xs_plan::Plan;
use xs_rect::Rect;

/// How often everything is done; the least time of each call counts.
const ROUNDS: u32 = 5;

fn failed() -> io::Error {
    io::Error::from(io::ErrorKind::OutOfMemory)
}

/// The plan whose aliases are claimed, on the tile with the least corner.
fn plan(alloc: Global) -> io::Result<Plan> {
    let Some(tile) = Rect::new(0, 0, 64, 64) else {
        return Err(failed());
    };
    chain_plan(alloc, tile).map_err(|_memory| failed())
}

/// The time of one call, in thousandths of a nanosecond.
fn share(nanoseconds: u128, calls: u32) -> u128 {
    if calls == 0 {
        return 0;
    }
    nanoseconds.saturating_mul(1000) / u128::from(calls)
}

/// Prints a line for each call: at how many threads, its name, and its time in thousandths of a nanosecond; and how many
/// tiles were let go.
fn print_times(rt: &impl Print, threads: u32, times: Times) -> io::Result<()> {
    println!(rt;
        "cache {threads} claim {}",
        share(times.claim, times.aliases)
    )?;
    println!(rt;
        "cache {threads} finish {}",
        share(times.finish, times.aliases)
    )?;
    println!(rt; "cache {threads} read {}", share(times.read, times.reads))?;
    println!(rt;
        "cache {threads} retire {}",
        share(times.retire, times.reads)
    )?;
    println!(rt; "cache {threads} tiles {}", times.let_go)
}

/// Prints how long the calls take at one thread and at four. At four it is the time of all of them together: that of the
/// seat that took longest, over the calls of all four.
pub fn time<R: Print + Clock + Threads + Sync>(rt: &R, alloc: Global) -> io::Result<()> {
    let plan = plan(alloc)?;
    let one = least_by_one(rt, alloc, &plan, ROUNDS).map_err(|_stop| failed())?;
    print_times(rt, 1, one)?;
    let four = least_by_four(rt, alloc, &plan, ROUNDS).map_err(|_stop| failed())?;
    print_times(rt, 4, four)
}
