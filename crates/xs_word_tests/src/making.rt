//! Two seats in two threads make the aliases of a small plan, and the chief shows its rows.

ghost use Rattle.std.specs.Prelude.{◌≡◌, ◌≢◌, ◌<◌, ◌+◌, None, true, IfOk, IsSome, OnOk, length};
ghost use Rattle.xs_plan.specs.Reads.{reads_in};
ghost use Rattle.xs_word_tests.specs.Hands.{IsFree, HasOne, AreOpen, IsSeat};

use crate::plans::squared;
use crate::seat::is_of;
use crate::{finish, give_up, serve, show, tells_open_roots, wins};
use std::alloc::Global;
use std::marker::Brand;
use std::test::Fail;
use std::thread::{Threads, join_mut};
use xs_base::Memory;
use xs_core::{Desk, edge_of};
use xs_pixel::Film;
use xs_plan::Plan;
use xs_raster::TileRef;
use xs_rect::Rect;
use xs_word_desk::Cache;

/// How often a read is tried while another seat makes its source or has its tile.
const TRIES: u32 = 100_000_000;

/// How often the plan is made.
const RUNS: u32 = 1000;

/// Serves a read of the alias that the seat has claimed, once its source is ready and no other seat has the tile: the
/// tile. None after too many tries.
fn serve_in_time<K: Film, D: Desk<K>>(
    desk: &mut D,
    p: &Plan,
    k: u32,
    e: u32,
) -> Result<Option<TileRef>, Memory>
    requires plan { D.plan desk.old ≡ p.now }
    requires there { e < reads_in p.now }
    requires one { HasOne k (D.view desk.old) }
    requires open { AreOpen p.now k e (D.view desk.old) }
    requires other { (D.view desk.old).number ≢ 0 }
    ensures plan { D.plan desk.new ≡ p.now }
    ensures seat { IsSeat (D.view desk.old) (D.view desk.new) }
    ensures one { HasOne k (D.view desk.new) }
    ensures served { IfOk result (λ r. IsSome r → AreOpen p.now k (e + 1) (D.view desk.new)) }
{
    for _try in 0..TRIES {
        let served = serve(desk, p, k, e)?;
        match served {
            Some((tile, _left)) => return Ok(Some(tile)),
            None => {}
        }
    }
    Ok(None)
}

/// Serves a read if it is of the alias that the seat has claimed. False where it was not served in time, or its tile is
/// of another alias than the read's source.
fn serve_own<K: Film, D: Desk<K>>(desk: &mut D, p: &Plan, k: u32, e: u32) -> Result<bool, Memory>
    requires plan { D.plan desk.old ≡ p.now }
    requires there { e < reads_in p.now }
    requires one { HasOne k (D.view desk.old) }
    requires open { AreOpen p.now k e (D.view desk.old) }
    requires other { (D.view desk.old).number ≢ 0 }
    ensures plan { D.plan desk.new ≡ p.now }
    ensures seat { IsSeat (D.view desk.old) (D.view desk.new) }
    ensures one { HasOne k (D.view desk.new) }
    ensures open { IfOk result (λ r. r ≡ true → AreOpen p.now k (e + 1) (D.view desk.new)) }
{
    let edge = edge_of(p, e);
    if !is_of(edge.reader, k) {
        return Ok(true);
    }
    let served = serve_in_time(desk, p, k, e)?;
    match served {
        Some(tile) => Ok(tile.tile().alias() == edge.source),
        None => Ok(false),
    }
}

/// Serves all reads of the alias that the seat has claimed. False where one was not served in time, or its tile is of
/// another alias than the read's source.
fn serve_all<K: Film, D: Desk<K>>(desk: &mut D, p: &Plan, k: u32) -> Result<bool, Memory>
    requires plan { D.plan desk.old ≡ p.now }
    requires one { HasOne k (D.view desk.old) }
    requires open { AreOpen p.now k 0 (D.view desk.old) }
    requires other { (D.view desk.old).number ≢ 0 }
    ensures plan { D.plan desk.new ≡ p.now }
    ensures seat { IsSeat (D.view desk.old) (D.view desk.new) }
    ensures one { HasOne k (D.view desk.new) }
{
    for e in 0..p.reads() {
        if !serve_own(desk, p, k, e)? {
            return Ok(false);
        }
    }
    Ok(true)
}

/// Makes an alias where the seat wins it. It gives the alias up where the reads were not served.
fn make<K: Film, D: Desk<K>>(alloc: Global, desk: &mut D, p: &Plan, k: u32) -> Result<(), Memory>
    requires untold { K.pictures ≡ None }
    requires plan { D.plan desk.old ≡ p.now }
    requires there { k < length p.now.entries }
    requires free { IsFree (D.view desk.old) }
    requires other { (D.view desk.old).number ≢ 0 }
    ensures plan { D.plan desk.new ≡ p.now }
    ensures seat { IsSeat (D.view desk.old) (D.view desk.new) }
    ensures free { OnOk result (IsFree (D.view desk.new)) }
{
    if !wins(desk, p, k) {
        return Ok(());
    }
    if serve_all(desk, p, k)? {
        finish(alloc, desk, p, k)
    } else {
        give_up(desk, p, k);
        Ok(())
    }
}

/// Makes all aliases that the seat wins.
fn make_all<K: Film, D: Desk<K>>(alloc: Global, desk: &mut D, p: &Plan) -> Result<(), Memory>
    requires untold { K.pictures ≡ None }
    requires plan { D.plan desk.old ≡ p.now }
    requires free { IsFree (D.view desk.old) }
    requires other { (D.view desk.old).number ≢ 0 }
    ensures plan { D.plan desk.new ≡ p.now }
    ensures seat { IsSeat (D.view desk.old) (D.view desk.new) }
    ensures free { OnOk result (IsFree (D.view desk.new)) }
{
    for k in 0..p.aliases() {
        make(alloc, desk, p, k)?;
    }
    Ok(())
}

/// Makes all aliases at two seats in two threads.
fn both_make<K: Film + Sync, D: Desk<K> + Send>(
    rt: &impl Threads,
    alloc: &Global,
    a: &mut D,
    b: &mut D,
    p: &Plan,
) -> (Result<(), Memory>, Result<(), Memory>)
    requires untold { K.pictures ≡ None }
    requires a_plan { D.plan a.old ≡ p.now }
    requires b_plan { D.plan b.old ≡ p.now }
    requires a_free { IsFree (D.view a.old) }
    requires b_free { IsFree (D.view b.old) }
    requires a_other { (D.view a.old).number ≢ 0 }
    requires b_other { (D.view b.old).number ≢ 0 }
    ensures a_plan { D.plan a.new ≡ p.now }
    ensures b_plan { D.plan b.new ≡ p.now }
    ensures a_seat { IsSeat (D.view a.old) (D.view a.new) }
    ensures b_seat { IsSeat (D.view b.old) (D.view b.new) }
    ensures a_free { OnOk result.0 (IsFree (D.view a.new)) }
    ensures b_free { OnOk result.1 (IsFree (D.view b.new)) }
{
    join_mut(
        rt,
        &mut || make_all(*alloc, a, p),
        &mut || make_all(*alloc, b, p),
    )
}

/// Reads and serves all reads of rows' tiles at the chief: how many.
fn show_all<K: Film, D: Desk<K>>(chief: &mut D, p: &Plan) -> Result<u32, Memory>
    requires plan { D.plan chief.old ≡ p.now }
    requires chief { (D.view chief.old).number ≡ 0 }
    requires free { IsFree (D.view chief.old) }
    ensures plan { D.plan chief.new ≡ p.now }
    ensures seat { IsSeat (D.view chief.old) (D.view chief.new) }
{
    tells_open_roots(chief);
    let mut shown = 0;
    for e in 0..p.reads() {
        let tile = show(chief, p, e)?;
        if tile.is_some() {
            shown += 1;
        }
    }
    Ok(shown)
}

/// Makes a plan at two seats of a cache in two threads: how many tiles of rows the chief shows, and how many tiles are
/// held at the end.
fn made_by_two<K: Film + Sync>(
    rt: &impl Threads,
    alloc: Global,
    p: &Plan,
) -> Result<(u32, u32), Memory>
    requires { K.pictures ≡ None }
{
    let (cache, pass) = Cache::<K>::new(alloc, p)?;
    let mut chief = cache.desk(pass);
    let mut a = chief.split();
    let mut b = chief.split();
    let (first, second) = both_make(rt, &alloc, &mut a, &mut b, p);
    first?;
    second?;
    chief.join(a);
    chief.join(b);
    chief.tells_whether_alone();
    let shown = show_all(&mut chief, p)?;
    let pass = chief.leave();
    Ok((shown, cache.close(pass).tiles()))
}

#[test]
fn a_plan_is_made_by_two_threads_a_thousand_times(rt: HostRuntime) -> Result<(), Fail> {
    let alloc = rt.alloc();
    let p = squared(alloc, Rect::new(0, 0, 1, 1).ok_or("a tile")?)?;
    for run in 0..RUNS {
        let (shown, held) = made_by_two::<Brand>(&rt, alloc, &p)?;
        assert!(rt;
            (shown, held) == (1, 0),
            "what is shown and held after run {run}"
        );
    }
    Ok(())
}
