//! The calls of a seat, each over all aliases or reads of a block.

ghost use Rattle.std.specs.Prelude.{◌≡◌, ◌<◌, ◌≤◌, ◌+◌, ℕ, None, IfOk, OnOk, length};
ghost use Rattle.xs_plan.specs.Reads.{reads_in};
ghost use Rattle.xs_core.specs.Calls.{HoldsTile};
ghost use Rattle.xs_core.specs.Views.{DeskOk};
ghost use Rattle.xs_cache_timing.specs.Blocks.{IsBlock, HasWon, HasMade, HasServed, MayLive};

use crate::block::Block;
use crate::times::{Times, now};
use std::alloc::Global;
use std::rt::Clock;
use xs_base::Memory;
use xs_core::laws::seats_may_go_on;
use xs_core::{Claim, Desk, Reading};
use xs_pixel::Film;
use xs_plan::Plan;
use xs_raster::{Raster, Tile, TileRef};

/// Why a seat did not get through its block.
#[derive(Clone, Copy, Debug, PartialEq, Eq)]
pub enum Stop {
    /// Memory was wanted and there was none.
    Memory,
    /// Another seat had one of its aliases or tiles.
    Taken,
    /// The plan has no such block.
    NoBlock,
}

impl From<Memory> for Stop {
    fn from(_error: Memory) -> Self {
        Stop::Memory
    }
}

/// Tells what a seat keeps.
fn look_over<K: Film, D: Desk<K>>(desk: &D)
    ensures { DeskOk (D.plan desk.now) (D.view desk.now) }
{
    let _ = desk;
}

/// Claims the next alias of its block.
fn claim<K: Film, D: Desk<K>>(desk: &mut D, p: &Plan, block: Block, k: u32) -> Result<(), Stop>
    requires plan { D.plan desk.old ≡ p.now }
    requires there { k < length p.now.entries }
    requires won { HasWon block k (D.view desk.old) }
    ensures plan { D.plan desk.new ≡ p.now }
    ensures won { OnOk result (HasWon block (k + 1) (D.view desk.new)) }
{
    match desk.claim(k) {
        Claim::Won => Ok(()),
        Claim::Busy | Claim::Ready | Claim::Lost => Err(Stop::Taken),
    }
}

/// Claims all aliases of its block.
fn claim_all<K: Film, D: Desk<K>>(desk: &mut D, p: &Plan, block: Block) -> Result<(), Stop>
    requires plan { D.plan desk.old ≡ p.now }
    requires block { IsBlock p.now block }
    requires won { HasWon block block.first (D.view desk.old) }
    ensures plan { D.plan desk.new ≡ p.now }
    ensures won { OnOk result (HasWon block block.past (D.view desk.new)) }
{
    for k in block.first..block.past {
        claim(desk, p, block, k)?;
    }
    Ok(())
}

/// The tile of an alias where it is clear, without bytes.
fn blank_tile(alloc: Global, p: &Plan, k: u32) -> Result<TileRef, Memory>
    requires { k < length p.now.entries }
    ensures { IfOk result (λ t. HoldsTile None p.now k t) }
{
    let _aliases = p.aliases();
    let raster = Raster::blank(alloc, p.rect(k));
    TileRef::new(alloc, Tile::new(k, raster))
}

/// Makes the tile of the next alias of its block, and puts it.
fn finish<K: Film, D: Desk<K>>(
    alloc: Global,
    desk: &mut D,
    p: &Plan,
    block: Block,
    k: u32,
) -> Result<(), Memory>
    requires untold { K.pictures ≡ None }
    requires plan { D.plan desk.old ≡ p.now }
    requires there { k < length p.now.entries }
    requires own { (block.first ≤ k) × (k < block.past) }
    requires made { HasMade block k (D.view desk.old) }
    ensures plan { D.plan desk.new ≡ p.now }
    ensures made { OnOk result (HasMade block (k + 1) (D.view desk.new)) }
{
    let tile = blank_tile(alloc, p, k)?;
    desk.finish(k, tile);
    Ok(())
}

/// Makes and puts the tiles of all aliases of its block.
fn finish_all<K: Film, D: Desk<K>>(
    alloc: Global,
    desk: &mut D,
    p: &Plan,
    block: Block,
) -> Result<(), Memory>
    requires untold { K.pictures ≡ None }
    requires plan { D.plan desk.old ≡ p.now }
    requires block { IsBlock p.now block }
    requires made { HasMade block block.first (D.view desk.old) }
    ensures plan { D.plan desk.new ≡ p.now }
    ensures made { OnOk result (HasMade block block.past (D.view desk.new)) }
{
    for k in block.first..block.past {
        finish(alloc, desk, p, block, k)?;
    }
    Ok(())
}

/// Takes the tile of a read of its block, and lets it go.
fn read<K: Film, D: Desk<K>>(desk: &mut D, p: &Plan, block: Block, e: u32) -> Result<(), Stop>
    requires plan { D.plan desk.old ≡ p.now }
    requires block { IsBlock p.now block }
    requires own { (block.first_read ≤ e) × (e < block.past_read) }
    requires unserved { HasServed block 0 (D.view desk.old) }
    ensures plan { D.plan desk.new ≡ p.now }
    ensures unserved { OnOk result (HasServed block 0 (D.view desk.new)) }
{
    seats_may_go_on();
    match desk.read(e) {
        Ok(Reading::Got(_tile)) => Ok(()),
        Ok(Reading::Turn) => Err(Stop::Taken),
        Err(error) => Err(Stop::from(error)),
    }
}

/// Takes the tiles of all reads of its block.
fn read_all<K: Film, D: Desk<K>>(desk: &mut D, p: &Plan, block: Block) -> Result<(), Stop>
    requires plan { D.plan desk.old ≡ p.now }
    requires block { IsBlock p.now block }
    requires unserved { HasServed block 0 (D.view desk.old) }
    ensures plan { D.plan desk.new ≡ p.now }
    ensures unserved { OnOk result (HasServed block 0 (D.view desk.new)) }
{
    for e in block.first_read..block.past_read {
        read(desk, p, block, e)?;
    }
    Ok(())
}

/// Serves the next read of its block, and answers how many reads of its source are open then.
fn retire<K: Film, D: Desk<K>>(desk: &mut D, p: &Plan, block: Block, e: u32) -> u32
    requires plan { D.plan desk.old ≡ p.now }
    requires block { IsBlock p.now block }
    requires own { (block.first_read ≤ e) × (e < block.past_read) }
    requires served { HasServed block e (D.view desk.old) }
    ensures plan { D.plan desk.new ≡ p.now }
    ensures served { HasServed block (e + 1) (D.view desk.new) }
{
    desk.retire(e)
}

/// Serves all reads of its block, and answers how many tiles were let go.
fn retire_all<K: Film, D: Desk<K>>(desk: &mut D, p: &Plan, block: Block) -> u32
    requires plan { D.plan desk.old ≡ p.now }
    requires block { IsBlock p.now block }
    requires unserved { HasServed block 0 (D.view desk.old) }
{
    let mut let_go = 0;
    for e in block.first_read..block.past_read {
        if retire(desk, p, block, e) == 0 {
            let_go += 1;
        }
    }
    let_go
}

/// Claims, finishes, reads and retires all of a block, and tells how long each took.
pub fn live<R: Clock, K: Film, D: Desk<K>>(
    rt: &R,
    alloc: Global,
    desk: &mut D,
    p: &Plan,
    block: Block,
) -> Result<Times, Stop>
    requires untold { K.pictures ≡ None }
    requires may { MayLive p.now block (D.plan desk.old) (D.view desk.old) }
{
    let begun = now(rt);
    claim_all(desk, p, block)?;
    let claimed = now(rt);
    finish_all(alloc, desk, p, block)?;
    let finished = now(rt);
    read_all(desk, p, block)?;
    let read = now(rt);
    let let_go = retire_all(desk, p, block);
    let retired = now(rt);
    Ok(Times {
        aliases: block.past.saturating_sub(block.first),
        reads: block.past_read.saturating_sub(block.first_read),
        claim: claimed.saturating_sub(begun),
        finish: finished.saturating_sub(claimed),
        read: read.saturating_sub(finished),
        retire: retired.saturating_sub(read),
        let_go,
    })
}
