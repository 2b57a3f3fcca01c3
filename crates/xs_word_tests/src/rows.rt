//! Two seats of a cache in one thread, event by event.

ghost use Rattle.std.specs.Prelude.{◌≡◌, ◌≢◌, ◌<◌, ◌≤◌, ◌+◌, None, OnOk, length};
ghost use Rattle.xs_plan.specs.Reads.{reads_in};
ghost use Rattle.xs_word_tests.specs.Hands.{IsFree, HasOne, AreOpen, IsSeat};

use crate::plans::squared;
use crate::{finish, give_up, looks, serve, show, tells_open_roots, wins};
use std::alloc::Global;
use std::marker::Brand;
use std::process::Abort;
use std::test::Fail;
use xs_base::Memory;
use xs_core::{Claim, Desk, Look};
use xs_pixel::Film;
use xs_plan::Plan;
use xs_rect::Rect;
use xs_word_desk::Cache;

/// Asserts that an alias is won.
fn takes<K: Film, D: Desk<K>>(rt: &impl Abort, desk: &mut D, p: &Plan, k: u32)
    requires plan { D.plan desk.old ≡ p.now }
    requires there { k < length p.now.entries }
    requires free { IsFree (D.view desk.old) }
    requires other { (D.view desk.old).number ≢ 0 }
    ensures plan { D.plan desk.new ≡ p.now }
    ensures seat { IsSeat (D.view desk.old) (D.view desk.new) }
    ensures one { HasOne k (D.view desk.new) }
    ensures open { AreOpen p.now k 0 (D.view desk.new) }
{
    if !wins(desk, p, k) {
        panic!(rt; "alias {k} is not won");
    }
}

/// Asserts how an alias is found that is claimed already.
fn meets<K: Film, D: Desk<K>>(rt: &impl Abort, desk: &mut D, p: &Plan, k: u32, wanted: Claim)
    requires plan { D.plan desk.old ≡ p.now }
    requires there { k < length p.now.entries }
    requires free { IsFree (D.view desk.old) }
    ensures plan { D.plan desk.new ≡ p.now }
    ensures seat { IsSeat (D.view desk.old) (D.view desk.new) }
    ensures free { IsFree (D.view desk.new) }
{
    let found = match desk.claim(k) {
        Claim::Won => panic!(rt; "alias {k} is won"),
        Claim::Busy => Claim::Busy,
        Claim::Ready => Claim::Ready,
        Claim::Lost => Claim::Lost,
    };
    assert!(rt; found == wanted, "how alias {k} is found");
}

/// Asserts how an alias is found.
fn sees<K: Film, D: Desk<K>>(rt: &impl Abort, desk: &mut D, p: &Plan, k: u32, wanted: Look)
    requires plan { D.plan desk.old ≡ p.now }
    requires there { k < length p.now.entries }
    requires free { IsFree (D.view desk.old) }
    ensures plan { D.plan desk.new ≡ p.now }
    ensures seat { IsSeat (D.view desk.old) (D.view desk.new) }
    ensures free { IsFree (D.view desk.new) }
{
    let found = looks(desk, p, k);
    assert!(rt; found == wanted, "how alias {k} is found");
}

/// Serves a read of the alias that the seat has claimed, and asserts the alias of the tile, and how many reads of it
/// are open then.
fn serves<K: Film, D: Desk<K>>(
    rt: &impl Abort,
    desk: &mut D,
    p: &Plan,
    k: u32,
    e: u32,
    wanted: (u32, u32),
) -> Result<(), Memory>
    requires plan { D.plan desk.old ≡ p.now }
    requires there { e < reads_in p.now }
    requires one { HasOne k (D.view desk.old) }
    requires open { AreOpen p.now k e (D.view desk.old) }
    requires other { (D.view desk.old).number ≢ 0 }
    ensures plan { D.plan desk.new ≡ p.now }
    ensures seat { IsSeat (D.view desk.old) (D.view desk.new) }
    ensures one { HasOne k (D.view desk.new) }
    ensures open { OnOk result (AreOpen p.now k (e + 1) (D.view desk.new)) }
{
    match serve(desk, p, k, e) {
        Ok(Some((tile, left))) => {
            assert!(rt;
                (tile.tile().alias(), left) == wanted,
                "what read {e} tells"
            );
            Ok(())
        }
        Ok(None) => panic!(rt; "read {e} is not served"),
        Err(error) => Err(error),
    }
}

/// One seat makes the first alias, and another finds it claimed and then ready.
fn first<K: Film, D: Desk<K>>(
    rt: &impl Abort,
    alloc: Global,
    a: &mut D,
    b: &mut D,
    p: &Plan,
) -> Result<(), Memory>
    requires untold { K.pictures ≡ None }
    requires two { 2 ≤ length p.now.entries }
    requires plans { (D.plan a.old ≡ p.now) × (D.plan b.old ≡ p.now) }
    requires free { IsFree (D.view a.old) × IsFree (D.view b.old) }
    requires others { ((D.view a.old).number ≢ 0) × ((D.view b.old).number ≢ 0) }
    ensures plans { (D.plan a.new ≡ p.now) × (D.plan b.new ≡ p.now) }
    ensures seats { IsSeat (D.view a.old) (D.view a.new) × IsSeat (D.view b.old) (D.view b.new) }
    ensures free { OnOk result (IsFree (D.view a.new) × IsFree (D.view b.new)) }
{
    takes(rt, a, p, 0);
    meets(rt, b, p, 0, Claim::Busy);
    sees(rt, b, p, 0, Look::Busy);
    sees(rt, b, p, 1, Look::Idle);
    finish(alloc, a, p, 0)?;
    meets(rt, b, p, 0, Claim::Ready);
    Ok(())
}

/// A seat makes the second alias, which reads the first one twice.
fn second<K: Film, D: Desk<K>>(
    rt: &impl Abort,
    alloc: Global,
    a: &mut D,
    p: &Plan,
) -> Result<(), Memory>
    requires untold { K.pictures ≡ None }
    requires two { 2 ≤ length p.now.entries }
    requires three { 3 ≤ reads_in p.now }
    requires plan { D.plan a.old ≡ p.now }
    requires free { IsFree (D.view a.old) }
    requires other { (D.view a.old).number ≢ 0 }
    ensures plan { D.plan a.new ≡ p.now }
    ensures seat { IsSeat (D.view a.old) (D.view a.new) }
    ensures free { OnOk result (IsFree (D.view a.new)) }
{
    takes(rt, a, p, 1);
    serves(rt, a, p, 1, 0, (0, 1))?;
    serves(rt, a, p, 1, 1, (0, 0))?;
    finish(alloc, a, p, 1)?;
    Ok(())
}

/// A seat gives the first alias up, and another finds it lost.
fn gives_up<K: Film, D: Desk<K>>(rt: &impl Abort, a: &mut D, b: &mut D, p: &Plan)
    requires two { 2 ≤ length p.now.entries }
    requires plans { (D.plan a.old ≡ p.now) × (D.plan b.old ≡ p.now) }
    requires free { IsFree (D.view a.old) × IsFree (D.view b.old) }
    requires others { ((D.view a.old).number ≢ 0) × ((D.view b.old).number ≢ 0) }
    ensures plans { (D.plan a.new ≡ p.now) × (D.plan b.new ≡ p.now) }
    ensures seats { IsSeat (D.view a.old) (D.view a.new) × IsSeat (D.view b.old) (D.view b.new) }
    ensures free { IsFree (D.view a.new) × IsFree (D.view b.new) }
{
    takes(rt, a, p, 0);
    give_up(a, p, 0);
    meets(rt, b, p, 0, Claim::Lost);
    sees(rt, b, p, 0, Look::Lost);
}

/// The chief shows the only row.
fn shows_the_row<K: Film, D: Desk<K>>(
    rt: &impl Abort,
    chief: &mut D,
    p: &Plan,
) -> Result<(), Memory>
    requires three { 3 ≤ reads_in p.now }
    requires two { 2 ≤ length p.now.entries }
    requires plan { D.plan chief.old ≡ p.now }
    requires chief { (D.view chief.old).number ≡ 0 }
    requires free { IsFree (D.view chief.old) }
    ensures plan { D.plan chief.new ≡ p.now }
    ensures seat { IsSeat (D.view chief.old) (D.view chief.new) }
{
    sees(rt, chief, p, 1, Look::Ready);
    tells_open_roots(chief);
    match show(chief, p, 2) {
        Ok(Some((tile, left))) => {
            assert!(rt; (tile.tile().alias(), left) == (1, 0), "what the row shows");
            Ok(())
        }
        Ok(None) => panic!(rt; "the row is not shown"),
        Err(error) => Err(error),
    }
}

/// Makes both aliases at one of two seats, shows the row at the chief, and asserts that nothing is held at the end.
fn makes_both<K: Film>(rt: &impl Abort, alloc: Global, p: &Plan) -> Result<(), Memory>
    requires { K.pictures ≡ None }
{
    assert!(rt; p.aliases() == 2, "two aliases");
    assert!(rt; p.reads() == 3, "three reads");
    let (cache, pass) = Cache::<K>::new(alloc, p)?;
    let mut chief = cache.desk(pass);
    let mut a = chief.split();
    let mut b = chief.split();
    first(rt, alloc, &mut a, &mut b, p)?;
    second(rt, alloc, &mut a, p)?;
    chief.join(a);
    chief.join(b);
    chief.tells_whether_alone();
    shows_the_row(rt, &mut chief, p)?;
    let pass = chief.leave();
    assert!(rt; cache.close(pass).tiles() == 0, "nothing is held");
    Ok(())
}

/// Makes the first alias at one of two seats, and asserts that its tile is held at the end.
fn makes_one<K: Film>(rt: &impl Abort, alloc: Global, p: &Plan) -> Result<(), Memory>
    requires { K.pictures ≡ None }
{
    assert!(rt; p.aliases() == 2, "two aliases");
    let (cache, pass) = Cache::<K>::new(alloc, p)?;
    let mut chief = cache.desk(pass);
    let mut a = chief.split();
    let b = chief.split();
    takes(rt, &mut a, p, 0);
    finish(alloc, &mut a, p, 0)?;
    chief.join(a);
    chief.join(b);
    chief.tells_whether_alone();
    let pass = chief.leave();
    assert!(rt; cache.close(pass).tiles() == 1, "its tile is held");
    Ok(())
}

/// Gives the first alias up at one of two seats, and asserts that nothing is held at the end.
fn loses_one<K: Film>(rt: &impl Abort, alloc: Global, p: &Plan) -> Result<(), Memory> {
    assert!(rt; p.aliases() == 2, "two aliases");
    let (cache, pass) = Cache::<K>::new(alloc, p)?;
    let mut chief = cache.desk(pass);
    let mut a = chief.split();
    let mut b = chief.split();
    gives_up(rt, &mut a, &mut b, p);
    chief.join(b);
    chief.join(a);
    chief.tells_whether_alone();
    let pass = chief.leave();
    assert!(rt; cache.close(pass).tiles() == 0, "nothing is held");
    Ok(())
}

#[test]
fn two_seats_find_what_each_has_done(rt: HostRuntime) -> Result<(), Fail> {
    let alloc = rt.alloc();
    let p = squared(alloc, Rect::new(0, 0, 1, 1).ok_or("a tile")?)?;
    makes_both::<Brand>(&rt, alloc, &p)?;
    Ok(())
}

#[test]
fn what_a_seat_gives_up_another_finds_lost(rt: HostRuntime) -> Result<(), Fail> {
    let alloc = rt.alloc();
    let p = squared(alloc, Rect::new(0, 0, 1, 1).ok_or("a tile")?)?;
    loses_one::<Brand>(&rt, alloc, &p)?;
    Ok(())
}

#[test]
fn what_a_seat_makes_is_held_until_it_is_read(rt: HostRuntime) -> Result<(), Fail> {
    let alloc = rt.alloc();
    let p = squared(alloc, Rect::new(0, 0, 1, 1).ok_or("a tile")?)?;
    makes_one::<Brand>(&rt, alloc, &p)?;
    Ok(())
}
