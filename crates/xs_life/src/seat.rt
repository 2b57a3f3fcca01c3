//! A seat that is alone at a small cache, to the end.

ghost use Rattle.std.specs.Prelude.{◌≡◌, ◌<◌, ◌+◌, None, OnOk, length};
ghost use Rattle.xs_plan.specs.Reads.{reads_in};
ghost use Rattle.xs_life.specs.Alive.{Alive};

use crate::{make, serve, squared};
use std::alloc::Global;
use std::marker::Brand;
use std::process::Abort;
use std::test::Fail;
use xs_base::Memory;
use xs_core::laws::seats_may_go_on;
use xs_core::{Claim, Desk, Look};
use xs_pixel::Film;
use xs_plain_desk::PlainDesk;
use xs_plan::Plan;
use xs_rect::Rect;

/// Makes the next alias at a seat.
fn makes<K: Film, D: Desk<K>>(
    rt: &impl Abort,
    alloc: Global,
    desk: &mut D,
    p: &Plan,
    k: u32,
) -> Result<(), Memory>
    requires plan { p.now ≡ D.plan desk.old }
    requires there { k < length p.now.entries }
    requires untold { K.pictures ≡ None }
    requires alive { Alive (D.view desk.old) k 0 }
    ensures plan { D.plan desk.new ≡ D.plan desk.old }
    ensures alive { OnOk result (Alive (D.view desk.new) (k + 1) 0) }
{
    match make(alloc, desk, p, k) {
        Ok(true) => Ok(()),
        Ok(false) => panic!(rt; "alias {k} is not won"),
        Err(error) => Err(error),
    }
}

/// Serves the next read of two aliases, and asserts how many reads of its source are open then.
fn serves<K: Film, D: Desk<K>>(
    rt: &impl Abort,
    desk: &mut D,
    p: &Plan,
    e: u32,
    wanted: u32,
) -> Result<(), Memory>
    requires plan { p.now ≡ D.plan desk.old }
    requires there { e < reads_in p.now }
    requires alive { Alive (D.view desk.old) 2 e }
    ensures plan { D.plan desk.new ≡ D.plan desk.old }
    ensures alive { OnOk result (Alive (D.view desk.new) 2 (e + 1)) }
{
    match serve(desk, p, 2, e) {
        Ok(Some(left)) => {
            assert!(rt; left == wanted, "reads left after read {e}");
            Ok(())
        }
        Ok(None) => panic!(rt; "read {e} is not served"),
        Err(error) => Err(error),
    }
}

/// Makes both aliases and serves the three reads, and asserts what is held after each.
fn lives<K: Film>(rt: &impl Abort, alloc: Global, p: &Plan) -> Result<(), Memory>
    requires { K.pictures ≡ None }
{
    assert!(rt; p.aliases() == 2, "two aliases");
    assert!(rt; p.reads() == 3, "three reads");
    let mut desk = PlainDesk::<K>::new(alloc, p)?;
    assert!(rt; desk.held() == 0, "nothing is held");
    makes(rt, alloc, &mut desk, p, 0)?;
    assert!(rt; desk.held() == 1, "the drawing is held");
    makes(rt, alloc, &mut desk, p, 1)?;
    assert!(rt; desk.held() == 2, "both are held");
    serves(rt, &mut desk, p, 0, 1)?;
    assert!(rt; desk.held() == 2, "the drawing is read once more");
    serves(rt, &mut desk, p, 1, 0)?;
    assert!(rt; desk.held() == 1, "the drawing is let go");
    serves(rt, &mut desk, p, 2, 0)?;
    assert!(rt; desk.held() == 0, "nothing is held at the end");
    assert!(rt; desk.look(1) == Look::Ready, "the pair stays ready");
    Ok(())
}

/// Gives an alias up, and finds it lost.
fn gives_up<K: Film>(rt: &impl Abort, alloc: Global, p: &Plan) -> Result<(), Memory> {
    assert!(rt; p.aliases() == 2, "two aliases");
    let mut desk = PlainDesk::<K>::new(alloc, p)?;
    assert!(rt;
        desk.look(0) == Look::Idle,
        "nobody has claimed the drawing"
    );
    seats_may_go_on();
    match desk.claim(0) {
        Claim::Won => desk.abandon(0),
        _ => panic!(rt; "the drawing is not won"),
    }
    assert!(rt; desk.held() == 0, "nothing is held");
    assert!(rt;
        desk.claim(0) == Claim::Lost && desk.look(0) == Look::Lost,
        "the drawing is lost"
    );
    assert!(rt;
        desk.claim(1) == Claim::Won && desk.claim(1) == Claim::Busy,
        "the pair is claimed once"
    );
    assert!(rt; desk.held() == 0, "nothing is held");
    Ok(())
}

#[test]
fn a_seat_that_is_alone_makes_and_reads_all(rt: HostRuntime) -> Result<(), Fail> {
    let alloc = rt.alloc();
    let tile = Rect::new(0, 0, 1, 1).ok_or("a tile")?;
    let p = squared(alloc, tile)?;
    lives::<Brand>(&rt, alloc, &p)?;
    Ok(())
}

#[test]
fn what_is_given_up_is_lost(rt: HostRuntime) -> Result<(), Fail> {
    let alloc = rt.alloc();
    let tile = Rect::new(0, 0, 1, 1).ok_or("a tile")?;
    let p = squared(alloc, tile)?;
    gives_up::<Brand>(&rt, alloc, &p)?;
    Ok(())
}
