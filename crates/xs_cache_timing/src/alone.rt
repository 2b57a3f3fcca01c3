//! One seat alone, at new caches of the plan whose aliases each read the one before.

ghost use Rattle.std.specs.Prelude.{◌≡◌, None};
ghost use Rattle.xs_cache_timing.specs.Blocks.{IsBlock};

use crate::block::{Block, block_of};
use crate::chain::ALIASES;
use crate::seat::{Stop, live};
use crate::times::Times;
use std::alloc::Global;
use std::marker::Brand;
use std::rt::Clock;
use xs_pixel::Film;
use xs_plan::Plan;
use xs_word_desk::Cache;

/// The chief of a new cache lives a block.
fn lived_by_one<R: Clock, K: Film>(
    rt: &R,
    alloc: Global,
    p: &Plan,
    block: Block,
) -> Result<Times, Stop>
    requires untold { K.pictures ≡ None }
    requires block { IsBlock p.now block }
{
    let (cache, pass) = Cache::<K>::new(alloc, p)?;
    let mut chief = cache.desk(pass);
    live(rt, alloc, &mut chief, p, block)
}

/// One seat does all aliases, so many times, each time at a new cache: the least time of each call.
pub fn least_by_one<R: Clock>(rt: &R, alloc: Global, p: &Plan, rounds: u32) -> Result<Times, Stop> {
    let Some(block) = block_of(p, 0, ALIASES) else {
        return Err(Stop::NoBlock);
    };
    let mut least = lived_by_one::<R, Brand>(rt, alloc, p, block)?;
    for _round in 1..rounds {
        least = least.least(lived_by_one::<R, Brand>(rt, alloc, p, block)?);
    }
    Ok(least)
}
