//! The calls of a seat that has at most one alias claimed.

ghost use Rattle.std.specs.Prelude.{◌≡◌, ◌≢◌, ◌<◌, ◌+◌, ℕ, None, true, false, IfOk, IsSome, OnOk, length};
ghost use Rattle.xs_plan.specs.Reads.{reads_in};
ghost use Rattle.xs_plan.specs.declared.job.Reader.TheVariants.{Port};
ghost use Rattle.xs_core.specs.declared.answer.Look.TheVariants.{Ready};
ghost use Rattle.xs_core.specs.Views.{DeskOk, Knows, MayRead};
ghost use Rattle.xs_core.specs.Calls.{Stays};
ghost use Rattle.xs_word_tests.specs.Hands.{IsFree, HasOne, AreOpen, IsSeat};

use std::alloc::Global;
use xs_base::Memory;
use xs_core::laws::seats_may_go_on;
use xs_core::{Claim, Desk, Look, Reading, edge_of};
use xs_pixel::Film;
use xs_plan::{Plan, Reader};
use xs_raster::{Raster, Tile, TileRef};

/// Tells what a seat keeps.
pub(crate) fn look_over<K: Film, D: Desk<K>>(desk: &D)
    ensures { DeskOk (D.plan desk.now) (D.view desk.now) }
{
    let _ = desk;
}

/// Claims an alias. False where it was not won.
pub fn wins<K: Film, D: Desk<K>>(desk: &mut D, p: &Plan, k: u32) -> bool
    requires plan { D.plan desk.old ≡ p.now }
    requires there { k < length p.now.entries }
    requires free { IsFree (D.view desk.old) }
    requires other { (D.view desk.old).number ≢ 0 }
    ensures plan { D.plan desk.new ≡ p.now }
    ensures seat { IsSeat (D.view desk.old) (D.view desk.new) }
    ensures one { result ≡ true → HasOne k (D.view desk.new) }
    ensures open { result ≡ true → AreOpen p.now k 0 (D.view desk.new) }
    ensures free { result ≡ false → IsFree (D.view desk.new) }
{
    look_over(desk);
    seats_may_go_on();
    match desk.claim(k) {
        Claim::Won => true,
        Claim::Busy => false,
        Claim::Ready => false,
        Claim::Lost => false,
    }
}

/// How an alias is found.
pub fn looks<K: Film, D: Desk<K>>(desk: &mut D, p: &Plan, k: u32) -> Look
    requires plan { D.plan desk.old ≡ p.now }
    requires there { k < length p.now.entries }
    ensures plan { D.plan desk.new ≡ p.now }
    ensures stays { Stays (D.view desk.old) (D.view desk.new) }
    ensures known { result ≡ Ready → Knows (D.view desk.new) k }
{
    match desk.look(k) {
        Look::Idle => Look::Idle,
        Look::Busy => Look::Busy,
        Look::Ready => Look::Ready,
        Look::Lost => Look::Lost,
    }
}

/// Puts a clear tile of the alias that the seat has claimed.
pub fn finish<K: Film, D: Desk<K>>(
    alloc: Global,
    desk: &mut D,
    p: &Plan,
    k: u32,
) -> Result<(), Memory>
    requires plan { D.plan desk.old ≡ p.now }
    requires there { k < length p.now.entries }
    requires untold { K.pictures ≡ None }
    requires one { HasOne k (D.view desk.old) }
    ensures plan { D.plan desk.new ≡ p.now }
    ensures seat { IsSeat (D.view desk.old) (D.view desk.new) }
    ensures free { OnOk result (IsFree (D.view desk.new)) }
{
    look_over(desk);
    let raster = Raster::clear(alloc, p.rect(k))?;
    let tile = TileRef::new(alloc, Tile::new(k, raster))?;
    desk.finish(k, tile);
    Ok(())
}

/// Gives up the alias that the seat has claimed.
pub fn give_up<K: Film, D: Desk<K>>(desk: &mut D, p: &Plan, k: u32)
    requires plan { D.plan desk.old ≡ p.now }
    requires there { k < length p.now.entries }
    requires one { HasOne k (D.view desk.old) }
    ensures plan { D.plan desk.new ≡ p.now }
    ensures seat { IsSeat (D.view desk.old) (D.view desk.new) }
    ensures free { IsFree (D.view desk.new) }
{
    look_over(desk);
    desk.abandon(k);
}

/// Whether the seat may read for the alias that it has claimed: the read is of that alias, and its source is ready.
fn may_serve<K: Film, D: Desk<K>>(desk: &mut D, p: &Plan, k: u32, e: u32) -> bool
    requires plan { D.plan desk.old ≡ p.now }
    requires there { e < reads_in p.now }
    requires one { HasOne k (D.view desk.old) }
    requires open { AreOpen p.now k e (D.view desk.old) }
    ensures plan { D.plan desk.new ≡ p.now }
    ensures stays { Stays (D.view desk.old) (D.view desk.new) }
    ensures may { result ≡ true → MayRead p.now (D.view desk.new) e }
{
    let edge = edge_of(p, e);
    let own = is_of(edge.reader, k);
    let found = looks(desk, p, edge.source);
    look_over(desk);
    match found {
        Look::Ready => own,
        Look::Idle | Look::Busy | Look::Lost => false,
    }
}

/// Reads and serves a read of the alias that the seat has claimed: the tile, and how many reads of its source are
/// open then. None where the read is not of that alias, its source is not ready, or another seat had the tile.
pub fn serve<K: Film, D: Desk<K>>(
    desk: &mut D,
    p: &Plan,
    k: u32,
    e: u32,
) -> Result<Option<(TileRef, u32)>, Memory>
    requires plan { D.plan desk.old ≡ p.now }
    requires there { e < reads_in p.now }
    requires one { HasOne k (D.view desk.old) }
    requires open { AreOpen p.now k e (D.view desk.old) }
    requires other { (D.view desk.old).number ≢ 0 }
    ensures plan { D.plan desk.new ≡ p.now }
    ensures seat { IsSeat (D.view desk.old) (D.view desk.new) }
    ensures one { HasOne k (D.view desk.new) }
    ensures served { IfOk result (λ r. IsSome r → AreOpen p.now k (e + 1) (D.view desk.new)) }
    ensures unserved { IfOk result (λ r. r ≡ None → AreOpen p.now k e (D.view desk.new)) }
{
    if !may_serve(desk, p, k, e) {
        return Ok(None);
    }
    seats_may_go_on();
    match desk.read(e) {
        Ok(Reading::Got(tile)) => {
            let left = desk.retire(e);
            Ok(Some((tile, left)))
        }
        Ok(Reading::Turn) => Ok(None),
        Err(error) => Err(error),
    }
}

/// Whether a reader is a port of an alias.
pub(crate) fn is_of(reader: Reader, k: u32) -> bool
    ensures { result ≡ true → (port : ℕ) × (reader ≡ Port k port) }
{
    match reader {
        Reader::Port { alias, .. } => alias == k,
        Reader::Root { .. } => false,
    }
}
