//! Workers at a seat that is alone, whose bench is short of memory at one of its calls.

ghost use Rattle.std.specs.Prelude.{◌≡◌, ◌<◌, None, [], IfOk};
ghost use Rattle.xs_plan.specs.Record.{rows_in};
ghost use Rattle.xs_core.specs.Views.{DeskOk};
ghost use Rattle.xs_worker.specs.Advances.{StandsAt};
ghost use Rattle.xs_worker.specs.Sections.{IsBegun, section_roots};
ghost use Rattle.xs_sections.specs.Drawn.{AreAllDrawn};

use crate::plans::{held, late};
use std::alloc::Global;
use std::marker::Brand;
use std::process::Abort;
use std::test::Fail;
use xs_base::Memory;
use xs_bench::{Bench, PlainBench, ShortBench};
use xs_core::{Desk, Look};
use xs_life::squared;
use xs_pixel::Film;
use xs_plain_desk::PlainDesk;
use xs_plan::Plan;
use xs_rawfile::Drawings;
use xs_rect::Rect;
use xs_sections::{all_drawn, lead};
use xs_worker::laws::{
    new_workers_stand_where_nothing_is_claimed, targets_of_a_section_are_its_roots,
    the_first_section_is_begun_at_a_fresh_seat,
};
use xs_worker::{Advanced, Worker, section_targets};

/// Tells what a seat keeps.
fn look_over<K: Film, D: Desk<K>>(desk: &D)
    ensures { DeskOk (D.plan desk.now) (D.view desk.now) }
{
    let _ = desk;
}

/// A worker for the first section, before it.
fn first_worker<K: Film, D: Desk<K>>(alloc: Global, p: &Plan, desk: &D) -> Result<Worker, Memory>
    requires plan { D.plan desk.now ≡ p.now }
    requires there { 0 < rows_in p.now }
    requires begun { IsBegun p.now 0 (D.view desk.now) }
    ensures targets { IfOk result (λ w. w.targets ≡ section_roots p.now 0) }
    ensures stands { IfOk result (λ w. StandsAt p.now w (D.view desk.now)) }
{
    // what may be relied on in a plan
    p.aliases();
    look_over(desk);
    targets_of_a_section_are_its_roots();
    new_workers_stand_where_nothing_is_claimed();
    let worker = Worker::new(alloc, section_targets(alloc, p, 0)?)?;
    Ok(worker)
}

/// Another worker for the first section, where the first one has nothing claimed.
fn next_worker<K: Film, D: Desk<K>>(
    alloc: Global,
    p: &Plan,
    desk: &D,
    first: &Worker,
) -> Result<Worker, Memory>
    requires there { 0 < rows_in p.now }
    requires targets { first.now.targets ≡ section_roots p.now 0 }
    requires stands { StandsAt p.now first.now (D.view desk.now) }
    requires idle { first.now.stack ≡ [] }
    ensures stands { IfOk result (λ w. StandsAt p.now w (D.view desk.now)) }
{
    new_workers_stand_where_nothing_is_claimed();
    let worker = Worker::new(alloc, section_targets(alloc, p, 0)?)?;
    Ok(worker)
}

/// Asserts that a worker is short of memory. It has nothing claimed then.
fn falls_short<K: Film, D: Desk<K>, B: Bench>(
    rt: &impl Abort,
    alloc: Global,
    p: &Plan,
    worker: &mut Worker,
    desk: &mut D,
    bench: &mut B,
    d: &Drawings<K>,
)
    requires plan { D.plan desk.old ≡ p.now }
    requires stands { StandsAt p.now worker.old (D.view desk.old) }
    requires drawn { AreAllDrawn p.now d.now }
    ensures plan { D.plan desk.new ≡ p.now }
    ensures targets { worker.new.targets ≡ worker.old.targets }
    ensures stands { StandsAt p.now worker.new (D.view desk.new) }
    ensures idle { worker.new.stack ≡ [] }
{
    match worker.advance(alloc, p, desk, bench, d) {
        Err(Memory) => {}
        Ok(_) => panic!(rt; "the bench is not short"),
    }
}

/// Asserts that a worker finds an alias lost. It has nothing claimed then.
fn finds_lost<K: Film, D: Desk<K>, B: Bench>(
    rt: &impl Abort,
    alloc: Global,
    p: &Plan,
    worker: &mut Worker,
    desk: &mut D,
    bench: &mut B,
    d: &Drawings<K>,
    lost: u32,
)
    requires plan { D.plan desk.old ≡ p.now }
    requires stands { StandsAt p.now worker.old (D.view desk.old) }
    requires drawn { AreAllDrawn p.now d.now }
    ensures plan { D.plan desk.new ≡ p.now }
    ensures targets { worker.new.targets ≡ worker.old.targets }
    ensures stands { StandsAt p.now worker.new (D.view desk.new) }
    ensures idle { worker.new.stack ≡ [] }
{
    match worker.advance(alloc, p, desk, bench, d) {
        Ok(Advanced::Lost(k)) => assert!(rt; k == lost, "alias {k} is lost in place of {lost}"),
        _ => panic!(rt; "alias {lost} is not lost"),
    }
}

/// Asserts what is computed, and that it is held, where nothing is read by a row yet.
fn keeps<K: Film, B: Bench>(rt: &impl Abort, desk: &PlainDesk<K>, bench: &B, computed: &[u32]) {
    assert!(rt; bench.computed() == computed, "what is computed");
    assert!(rt;
        desk.held() as usize == computed.len(),
        "what is computed is held"
    );
}

/// Leads the first of two aliases, or both, by a bench that is short at a call; asserts what was computed before and
/// is held, which alias a further try finds lost, and so that of a new worker.
fn is_short_at<K: Film>(
    rt: &impl Abort,
    alloc: Global,
    p: &Plan,
    at: u64,
    computed: &[u32],
    lost: u32,
) -> Result<(), Fail>
    requires { K.pictures ≡ None }
{
    let d = held::<K>(alloc)?;
    let ready = p.rows() > 0 && p.aliases() == 2 && lost < 2 && all_drawn(p, &d);
    assert!(rt; ready, "two aliases, and the drawing is held");
    let mut desk = PlainDesk::<K>::new(alloc, p)?;
    let mut bench = ShortBench::new(PlainBench::new(alloc), at);
    the_first_section_is_begun_at_a_fresh_seat();
    let mut first = first_worker(alloc, p, &desk)?;
    falls_short(rt, alloc, p, &mut first, &mut desk, &mut bench, &d);
    keeps(rt, &desk, &bench, computed);
    finds_lost(rt, alloc, p, &mut first, &mut desk, &mut bench, &d, lost);
    let mut next = next_worker(alloc, p, &desk, &first)?;
    finds_lost(rt, alloc, p, &mut next, &mut desk, &mut bench, &d, lost);
    keeps(rt, &desk, &bench, computed);
    assert!(rt; desk.look(lost) == Look::Lost, "the alias was given up");
    Ok(())
}

/// Leads the first section by a bench that is short at its second call.
fn leads_short<K: Film>(rt: &impl Abort, alloc: Global, p: &Plan) -> Result<(), Fail>
    requires { K.pictures ≡ None }
{
    let d = held::<K>(alloc)?;
    let ready = p.rows() > 0 && all_drawn(p, &d);
    assert!(rt; ready, "the drawing is held");
    let mut desk = PlainDesk::<K>::new(alloc, p)?;
    let mut bench = ShortBench::new(PlainBench::new(alloc), 2);
    the_first_section_is_begun_at_a_fresh_seat();
    let led = lead(alloc, p, &mut desk, &mut bench, &d, 0);
    assert!(rt; led.is_err(), "the section is short of memory");
    keeps(rt, &desk, &bench, &[0]);
    Ok(())
}

#[test]
fn what_a_short_bench_leaves_of_a_pair(rt: HostRuntime) -> Result<(), Fail> {
    let alloc = rt.alloc();
    let p = squared(alloc, Rect::new(0, 0, 1, 1).ok_or("a tile")?)?;
    is_short_at::<Brand>(&rt, alloc, &p, 1, &[], 1)?;
    is_short_at::<Brand>(&rt, alloc, &p, 2, &[0], 1)?;
    Ok(())
}

#[test]
fn what_a_short_bench_leaves_of_a_section(rt: HostRuntime) -> Result<(), Fail> {
    let alloc = rt.alloc();
    let p = late(alloc, Rect::new(0, 0, 1, 1).ok_or("a tile")?)?;
    is_short_at::<Brand>(&rt, alloc, &p, 1, &[], 0)?;
    is_short_at::<Brand>(&rt, alloc, &p, 2, &[0], 1)?;
    leads_short::<Brand>(&rt, alloc, &p)
}
