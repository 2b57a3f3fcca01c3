//! Two seats in two threads.

ghost use Rattle.std.specs.Prelude.{◌≡◌, ◌≢◌};
ghost use Rattle.xs_word_tests.specs.Hands.{IsFree, IsSeat};

use crate::plans::many;
use crate::{give_up, wins};
use std::alloc::Global;
use std::marker::Brand;
use std::process::Abort;
use std::test::Fail;
use std::thread::{Threads, join_mut};
use xs_base::Memory;
use xs_core::Desk;
use xs_pixel::Film;
use xs_plan::Plan;
use xs_rect::Rect;
use xs_word_desk::Cache;

/// Claims all aliases, and gives up those that it won: which they are.
fn claim_all<K: Film, D: Desk<K>>(alloc: Global, desk: &mut D, p: &Plan) -> Result<Vec<u32>, Memory>
    requires plan { D.plan desk.old ≡ p.now }
    requires free { IsFree (D.view desk.old) }
    requires other { (D.view desk.old).number ≢ 0 }
    ensures plan { D.plan desk.new ≡ p.now }
    ensures seat { IsSeat (D.view desk.old) (D.view desk.new) }
    ensures free { IsFree (D.view desk.new) }
{
    let mut won = Vec::new(alloc);
    for k in 0..p.aliases() {
        if wins(desk, p, k) {
            give_up(desk, p, k);
            won.push(k)?;
        }
    }
    Ok(won)
}

/// Claims all aliases at two seats in two threads: which each won.
fn both_claim<K: Film + Sync, D: Desk<K> + Send>(
    rt: &impl Threads,
    alloc: &Global,
    a: &mut D,
    b: &mut D,
    p: &Plan,
) -> (Result<Vec<u32>, Memory>, Result<Vec<u32>, Memory>)
    requires a_plan { D.plan a.old ≡ p.now }
    requires b_plan { D.plan b.old ≡ p.now }
    requires a_free { IsFree (D.view a.old) }
    requires b_free { IsFree (D.view b.old) }
    requires a_other { (D.view a.old).number ≢ 0 }
    requires b_other { (D.view b.old).number ≢ 0 }
    ensures a_plan { D.plan a.new ≡ p.now }
    ensures b_plan { D.plan b.new ≡ p.now }
    ensures a_seat { IsSeat (D.view a.old) (D.view a.new) }
    ensures b_seat { IsSeat (D.view b.old) (D.view b.new) }
    ensures a_free { IsFree (D.view a.new) }
    ensures b_free { IsFree (D.view b.new) }
{
    join_mut(
        rt,
        &mut || claim_all(*alloc, a, p),
        &mut || claim_all(*alloc, b, p),
    )
}

/// Two seats of a cache claim all aliases of a plan: which each won. Nothing is held at the end.
fn claimed_by_two<K: Film + Sync>(
    rt: &(impl Abort + Threads),
    alloc: Global,
    p: &Plan,
) -> Result<(Vec<u32>, Vec<u32>), Memory> {
    let (cache, pass) = Cache::<K>::new(alloc, p)?;
    let mut chief = cache.desk(pass);
    let mut a = chief.split();
    let mut b = chief.split();
    let (first, second) = both_claim(rt, &alloc, &mut a, &mut b, p);
    chief.join(a);
    chief.join(b);
    chief.tells_whether_alone();
    let pass = chief.leave();
    let closed = cache.close(pass);
    assert!(rt; closed.tiles() == 0, "nothing is held at the end");
    Ok((first?, second?))
}

/// How often a number stands in a list.
fn times(items: &[u32], k: u32) -> usize {
    items.iter().filter(|item| **item == k).count()
}

#[test]
fn each_alias_of_many_is_won_by_one_of_two_threads(rt: HostRuntime) -> Result<(), Fail> {
    let alloc = rt.alloc();
    let p = many(alloc, Rect::new(0, 0, 1, 1).ok_or("a tile")?)?;
    assert!(rt; p.aliases() == 1100, "over a thousand aliases");
    let (first, second) = claimed_by_two::<Brand>(&rt, alloc, &p)?;
    for k in 0..p.aliases() {
        let won = times(first.as_slice(), k) <= 1
            && times(second.as_slice(), k) <= 1
            && (times(first.as_slice(), k) == 0) != (times(second.as_slice(), k) == 0);
        assert!(rt; won, "alias {k} is won once");
    }
    Ok(())
}
