//! Four seats of one cache, each with a block of its own.

ghost use Rattle.std.specs.Prelude.{◌≡◌, None, IfOk};
ghost use Rattle.xs_cache_timing.specs.Blocks.{MayLive};
ghost use Rattle.xs_cache_threads.specs.Crews.{AreBlocks};

use std::alloc::Global;
use std::marker::Brand;
use std::rt::Clock;
use std::thread::{Threads, join_mut};
use xs_cache_timing::{ALIASES, Block, Stop, Times, block_of, live, seats_begin_with_nothing};
use xs_core::Desk;
use xs_pixel::Film;
use xs_plan::Plan;
use xs_word_desk::Cache;

/// A fourth of the aliases.
const PART: u32 = ALIASES / 4;

/// What a seat tells of its block.
type Told = Result<Times, Stop>;

/// The blocks of four seats.
#[derive(Clone, Copy, Debug)]
pub struct Blocks {
    pub a: Block,
    pub b: Block,
    pub c: Block,
    pub d: Block,
}

/// Two seats live a block each, in two threads.
fn two_live<R: Threads + Sync + Clock, K: Film + Sync, D: Desk<K> + Send>(
    rt: &R,
    alloc: &Global,
    a: &mut D,
    b: &mut D,
    p: &Plan,
    first: Block,
    second: Block,
) -> (Told, Told)
    requires untold { K.pictures ≡ None }
    requires a { MayLive p.now first (D.plan a.old) (D.view a.old) }
    requires b { MayLive p.now second (D.plan b.old) (D.view b.old) }
{
    join_mut(
        rt,
        &mut || live(rt, *alloc, a, p, first),
        &mut || live(rt, *alloc, b, p, second),
    )
}

/// Four seats live a block each, in four threads.
fn four_live<R: Threads + Sync + Clock, K: Film + Sync, D: Desk<K> + Send>(
    rt: &R,
    alloc: &Global,
    a: &mut D,
    b: &mut D,
    c: &mut D,
    d: &mut D,
    p: &Plan,
    blocks: &Blocks,
) -> ((Told, Told), (Told, Told))
    requires untold { K.pictures ≡ None }
    requires a { MayLive p.now blocks.now.a (D.plan a.old) (D.view a.old) }
    requires b { MayLive p.now blocks.now.b (D.plan b.old) (D.view b.old) }
    requires c { MayLive p.now blocks.now.c (D.plan c.old) (D.view c.old) }
    requires d { MayLive p.now blocks.now.d (D.plan d.old) (D.view d.old) }
{
    let (first, second, third, fourth) = (blocks.a, blocks.b, blocks.c, blocks.d);
    join_mut(
        rt,
        &mut ||
            requires untold { K.pictures ≡ None }
            requires a { MayLive p.now first (D.plan a.now) (D.view a.now) }
            requires b { MayLive p.now second (D.plan b.now) (D.view b.now) }
        { two_live(rt, alloc, a, b, p, first, second) },
        &mut ||
            requires untold { K.pictures ≡ None }
            requires c { MayLive p.now third (D.plan c.now) (D.view c.now) }
            requires d { MayLive p.now fourth (D.plan d.now) (D.view d.now) }
        { two_live(rt, alloc, c, d, p, third, fourth) },
    )
}

/// Four seats that the chief of a new cache splits off live a block each, in four threads: of each call the time of the
/// seat that took longest.
fn lived_by_four<R: Threads + Sync + Clock, K: Film + Sync>(
    rt: &R,
    alloc: Global,
    p: &Plan,
    blocks: &Blocks,
) -> Result<Times, Stop>
    requires untold { K.pictures ≡ None }
    requires blocks { AreBlocks p.now blocks.now }
{
    let (cache, pass) = Cache::<K>::new(alloc, p)?;
    seats_begin_with_nothing();
    let mut chief = cache.desk(pass);
    let mut a = chief.split();
    let mut b = chief.split();
    let mut c = chief.split();
    let mut d = chief.split();
    let ((first, second), (third, fourth)) = four_live(
        rt, &alloc, &mut a, &mut b, &mut c, &mut d, p, blocks,
    );
    Ok(first?.beside(second?).beside(third?).beside(fourth?))
}

/// The blocks of four seats: a fourth of the aliases each.
fn fourths(p: &Plan) -> Result<Blocks, Stop>
    ensures { IfOk result (λ blocks. AreBlocks p.now blocks) }
{
    match (
        block_of(p, 0, PART),
        block_of(p, PART, 2 * PART),
        block_of(p, 2 * PART, 3 * PART),
        block_of(p, 3 * PART, 4 * PART),
    ) {
        (Some(a), Some(b), Some(c), Some(d)) => Ok(Blocks { a, b, c, d }),
        _ => Err(Stop::NoBlock),
    }
}

/// Four seats in four threads do a fourth of the aliases each, so many times, each time at a new cache: the least time of
/// each call, by the seat that took longest.
pub fn least_by_four<R: Threads + Sync + Clock>(
    rt: &R,
    alloc: Global,
    p: &Plan,
    rounds: u32,
) -> Result<Times, Stop> {
    let blocks = fourths(p)?;
    let mut least = lived_by_four::<R, Brand>(rt, alloc, p, &blocks)?;
    for _round in 1..rounds {
        least = least.least(lived_by_four::<R, Brand>(rt, alloc, p, &blocks)?);
    }
    Ok(least)
}
