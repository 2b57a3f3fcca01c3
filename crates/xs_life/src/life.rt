ghost use Rattle.std.specs.Prelude.{◌≡◌, ◌<◌, ◌≤◌, ◌+◌, ◌↔◌, Option, None, true, IfOk, IfSome, IsSome, IsTrue, OnOk, length};
ghost use Rattle.xs_plan.specs.Reads.{reads_in};
ghost use Rattle.xs_core.specs.Views.{DeskOk, IsFresh};
ghost use Rattle.xs_core.specs.Calls.{HoldsTile};
ghost use Rattle.xs_core.specs.States.{source_at};
ghost use Rattle.xs_life.specs.Alive.{Alive, IsMade};

use std::alloc::Global;
use xs_base::Memory;
use xs_core::laws::seats_may_go_on;
use xs_core::{Claim, Desk, Reading, edge_of};
use xs_pixel::Film;
use xs_plan::{Plan, Reader};
use xs_raster::{LONGEST_BLANK_SIDE, Raster, Tile, TileRef};

/// Makes the next alias, with its tile. False where it was not won.
pub fn put<K: Film, D: Desk<K>>(desk: &mut D, p: &Plan, k: u32, tile: TileRef) -> bool
    requires plan { p.now ≡ D.plan desk.old }
    requires there { k < length p.now.entries }
    requires value { HoldsTile K.pictures p.now k tile }
    requires alive { Alive (D.view desk.old) k 0 }
    ensures plan { D.plan desk.new ≡ D.plan desk.old }
    ensures alive { result ≡ true → Alive (D.view desk.new) (k + 1) 0 }
{
    look_over(desk);
    seats_may_go_on();
    match desk.claim(k) {
        Claim::Won => {
            desk.finish(k, tile);
            true
        }
        Claim::Busy | Claim::Ready | Claim::Lost => false,
    }
}

/// Makes the next alias, with a blank tile, where no pictures are told. False where it was not won.
pub fn make<K: Film, D: Desk<K>>(
    alloc: Global,
    desk: &mut D,
    p: &Plan,
    k: u32,
) -> Result<bool, Memory>
    requires plan { p.now ≡ D.plan desk.old }
    requires there { k < length p.now.entries }
    requires untold { K.pictures ≡ None }
    requires alive { Alive (D.view desk.old) k 0 }
    ensures plan { D.plan desk.new ≡ D.plan desk.old }
    ensures alive { IfOk result (λ won. won ≡ true → Alive (D.view desk.new) (k + 1) 0) }
{
    let tile = blank::<K>(alloc, p, k)?;
    Ok(put(desk, p, k, tile))
}

/// A read that was served.
#[derive(Drop)]
pub struct Served {
    /// The tile of its source.
    pub tile: TileRef,
    /// How many reads of its source are open after it.
    pub left: u32,
}

/// Serves the next read, where so many aliases were made. None where the read is not of those aliases, or another seat
/// had the tile.
pub fn serve_tile<K: Film, D: Desk<K>>(
    desk: &mut D,
    p: &Plan,
    aliases: u32,
    e: u32,
) -> Result<Option<Served>, Memory>
    requires plan { p.now ≡ D.plan desk.old }
    requires there { e < reads_in p.now }
    requires alive { Alive (D.view desk.old) aliases e }
    ensures plan { D.plan desk.new ≡ D.plan desk.old }
    ensures value { IfOk result (λ r. IfSome r (λ s. HoldsTile K.pictures p.now (source_at p.now e) s.tile)) }
    ensures alive { IfOk result (λ r. IsSome r → Alive (D.view desk.new) aliases (e + 1)) }
{
    let edge = edge_of(p, e);
    if edge.source >= aliases || !is_made(edge.reader, aliases) {
        return Ok(None);
    }
    seats_may_go_on();
    match desk.read(e) {
        Ok(Reading::Got(tile)) => {
            let left = desk.retire(e);
            Ok(Some(Served { tile, left }))
        }
        Ok(Reading::Turn) => Ok(None),
        Err(error) => Err(error),
    }
}

/// Serves the next read, where so many aliases were made: how many reads of its source are open after it. None where
/// the read is not of those aliases, or another seat had the tile.
pub fn serve<K: Film, D: Desk<K>>(
    desk: &mut D,
    p: &Plan,
    aliases: u32,
    e: u32,
) -> Result<Option<u32>, Memory>
    requires plan { p.now ≡ D.plan desk.old }
    requires there { e < reads_in p.now }
    requires alive { Alive (D.view desk.old) aliases e }
    ensures plan { D.plan desk.new ≡ D.plan desk.old }
    ensures alive { IfOk result (λ left. IsSome left → Alive (D.view desk.new) aliases (e + 1)) }
{
    match serve_tile(desk, p, aliases, e) {
        Ok(Some(served)) => Ok(Some(served.left)),
        Ok(None) => Ok(None),
        Err(error) => Err(error),
    }
}

/// Whether a reader is one of the first aliases, or a row's tile.
fn is_made(reader: Reader, aliases: u32) -> bool
    ensures { IsTrue result ↔ IsMade aliases reader }
{
    match reader {
        Reader::Port { alias, .. } => alias < aliases,
        Reader::Root { .. } => true,
    }
}

/// Tells what a seat keeps.
fn look_over<K: Film, D: Desk<K>>(desk: &D)
    ensures { DeskOk (D.plan desk.now) (D.view desk.now) }
{
    let _ = desk;
}

/// A blank tile of an alias, where no pictures are told.
fn blank<K: Film>(alloc: Global, p: &Plan, k: u32) -> Result<TileRef, Memory>
    requires there { k < length p.now.entries }
    requires untold { K.pictures ≡ None }
    ensures { IfOk result (λ t. HoldsTile K.pictures p.now k t) }
{
    let rect = p.rect(k);
    let small = rect.w() as usize <= LONGEST_BLANK_SIDE && rect.h() as usize <= LONGEST_BLANK_SIDE;
    let raster = if small {
        Raster::blank(alloc, rect)
    } else {
        Raster::clear(alloc, rect)?
    };
    TileRef::new(alloc, Tile::new(k, raster))
}

/// Makes the first aliases at a fresh seat that is alone. False where one was not won.
pub fn make_first<K: Film, D: Desk<K>>(
    alloc: Global,
    desk: &mut D,
    p: &Plan,
    aliases: u32,
) -> Result<bool, Memory>
    requires plan { p.now ≡ D.plan desk.old }
    requires there { aliases ≤ length p.now.entries }
    requires untold { K.pictures ≡ None }
    requires fresh { IsFresh (D.view desk.old) }
    ensures plan { D.plan desk.new ≡ D.plan desk.old }
    ensures alive { IfOk result (λ won. won ≡ true → Alive (D.view desk.new) aliases 0) }
{
    for k in 0..aliases {
        match make(alloc, desk, p, k) {
            Ok(true) => {}
            Ok(false) => return Ok(false),
            Err(error) => return Err(error),
        }
    }
    Ok(true)
}

/// Serves the reads, in order, as long as they are of the first aliases, which were made: how many.
pub fn serve_first<K: Film, D: Desk<K>>(desk: &mut D, p: &Plan, aliases: u32) -> Result<u32, Memory>
    requires plan { p.now ≡ D.plan desk.old }
    requires alive { Alive (D.view desk.old) aliases 0 }
    ensures { D.plan desk.new ≡ D.plan desk.old }
{
    for e in 0..p.reads() {
        match serve(desk, p, aliases, e) {
            Ok(Some(_left)) => {}
            Ok(None) => return Ok(e),
            Err(error) => return Err(error),
        }
    }
    Ok(p.reads())
}
