//! The states of a small cache, event by event.

ghost use Rattle.std.specs.Prelude.{◌≡◌, ◌<◌, ◌↔◌, IsTrue, length};
ghost use Rattle.xs_core.specs.Events.{IsOf};

use crate::squared;
use std::process::Abort;
use std::test::Fail;
use xs_core::{Core, Event, Phase, ReadState, Stepped, TileState};
use xs_plan::Plan;
use xs_rect::Rect;

/// Whether an event is of a plan.
fn is_of(p: &Plan, event: Event) -> bool
    ensures { IsTrue result ↔ IsOf p.now event }
{
    match event {
        Event::Claim { alias, .. }
        | Event::Finish { alias, .. }
        | Event::Abandon { alias, .. }
        | Event::Clear { alias, .. } => alias < p.aliases(),
        Event::Turn { read, .. } | Event::Give { read, .. } | Event::Retire { read, .. } => {
            read < p.reads()
        }
    }
}

/// Asserts what an event is answered.
fn steps(rt: &impl Abort, core: &mut Core, p: &Plan, event: Event, wanted: Stepped)
    requires { p.now ≡ core.old.plan }
    ensures { core.new.plan ≡ core.old.plan }
{
    assert!(rt; is_of(p, event), "the event is of the plan");
    let stepped = core.step(p, event);
    assert!(rt; stepped == wanted, "what the event is answered");
}

/// Asserts how far an alias is, where its tile is, and how many of its reads are open.
fn alias_is(rt: &impl Abort, core: &Core, p: &Plan, k: u32, wanted: (Phase, TileState, u32))
    requires { p.now ≡ core.now.plan }
{
    assert!(rt; k < p.aliases(), "the alias is of the plan");
    let found = (core.phase(k), core.tile(k), core.left(p, k));
    assert!(rt; found == wanted, "how far alias {k} is");
}

/// Asserts how far a read is.
fn read_is(rt: &impl Abort, core: &Core, p: &Plan, e: u32, wanted: ReadState)
    requires { p.now ≡ core.now.plan }
{
    assert!(rt; e < p.reads(), "the read is of the plan");
    assert!(rt; core.read_state(e) == wanted, "how far read {e} is");
}

#[test]
fn twelve_events_of_a_drawing_multiplied_with_itself(rt: HostRuntime) -> Result<(), Fail> {
    let alloc = rt.alloc();
    let tile = Rect::new(0, 0, 1, 1).ok_or("a tile")?;
    let p = squared(alloc, tile)?;
    let mut core = Core::start(alloc, &p)?;
    let claim = |seat, alias| Event::Claim { seat, alias };
    let (done, refused) = (Stepped::Done, Stepped::NotAllowed);
    alias_is(&rt, &core, &p, 0, (Phase::Idle, TileState::Absent, 2));
    steps(&rt, &mut core, &p, claim(1, 0), done);
    alias_is(&rt, &core, &p, 0, (Phase::Claimed(1), TileState::Absent, 2));
    steps(&rt, &mut core, &p, claim(2, 0), refused);
    alias_is(&rt, &core, &p, 0, (Phase::Claimed(1), TileState::Absent, 2));
    steps(
        &rt,
        &mut core,
        &p,
        Event::Finish { seat: 1, alias: 0 },
        done,
    );
    alias_is(&rt, &core, &p, 0, (Phase::Ready(1), TileState::Held, 2));
    steps(
        &rt,
        &mut core,
        &p,
        Event::Retire { seat: 1, read: 0 },
        refused,
    );
    read_is(&rt, &core, &p, 0, ReadState::Waiting);
    steps(&rt, &mut core, &p, claim(1, 1), done);
    steps(&rt, &mut core, &p, Event::Turn { seat: 1, read: 0 }, done);
    read_is(&rt, &core, &p, 0, ReadState::InTurn(1));
    steps(
        &rt,
        &mut core,
        &p,
        Event::Turn { seat: 1, read: 1 },
        refused,
    );
    read_is(&rt, &core, &p, 1, ReadState::Waiting);
    steps(&rt, &mut core, &p, Event::Give { seat: 1, read: 0 }, done);
    read_is(&rt, &core, &p, 0, ReadState::Waiting);
    steps(&rt, &mut core, &p, Event::Retire { seat: 1, read: 0 }, done);
    read_is(&rt, &core, &p, 0, ReadState::Served);
    alias_is(&rt, &core, &p, 0, (Phase::Ready(1), TileState::Held, 1));
    steps(
        &rt,
        &mut core,
        &p,
        Event::Clear { seat: 1, alias: 0 },
        refused,
    );
    steps(&rt, &mut core, &p, Event::Retire { seat: 1, read: 1 }, done);
    alias_is(
        &rt,
        &core,
        &p,
        0,
        (Phase::Ready(1), TileState::Leaving(1), 0),
    );
    steps(&rt, &mut core, &p, Event::Clear { seat: 1, alias: 0 }, done);
    alias_is(&rt, &core, &p, 0, (Phase::Ready(1), TileState::Absent, 0));
    alias_is(&rt, &core, &p, 1, (Phase::Claimed(1), TileState::Absent, 1));
    Ok(())
}
