//! The atomic steps of a seat for a read of an alias that it knows to be ready.
ghost use Rattle.std.specs.Prelude.{◌≡◌, ◌≢◌, ◌<◌, ◌+◌, ◌-◌, ◌/◌, ◌%◌, ◌^◌, ℕ, true, None, Some, IfOk, [], ◌∷◌, length};
ghost use mathlib.Core.Option.{none};
ghost use Rattle.atomic_table.specs.Table.{step};
ghost use Rattle.xs_raster.specs.declared.tile.Tile.{Tile};
ghost use Rattle.xs_core.specs.Calls.{HoldsTile};
ghost use Rattle.xs_plan.specs.Reads.{reads_in};
ghost use Rattle.xs_core.specs.Views.{LeftOpen, lacking};
ghost use Rattle.xs_core.specs.States.{source_at};
ghost use Rattle.xs_word_desk.specs.Changes.{AtRest, with_met, with_turn, with_served, with_cleared};
ghost use Rattle.xs_word_desk.specs.Plays.{IsSolo, MayServe, ReadTold, turned, retired, gave, cleared};

use crate::plays::{Clearing, Giving, ReadName, Retiring, Turning};
use crate::steps::{Seat, Shared};
use crate::words::{CLEARED, ONE_READ, TURN};
use std::marker::Brand;
use xs_base::Memory;
use xs_core::Reading;
use xs_pixel::Film;
use xs_raster::TileRef;

/// Takes out the tile of an alias for a read that reads it, unless another seat has it in turn; answers the word as it
/// was.
pub(crate) fn turn_as<K: Film, E: ReadName>(
    shared: &Shared<K>,
    seat: &mut Seat,
    k: u32,
    e: u32,
) -> u64
    requires table { seat.old.table_id ≡ shared.now.table_id }
    requires words { shared.now.table_id.words ≡ length shared.now.key.entries }
    requires rests { AtRest seat.old.me.0 }
    requires there { k < length shared.now.key.entries }
    requires named { (e ≡ E.read) × (shared.now.key ≡ E.plan) }
    requires may { MayServe shared.now.key seat.old.me.0 e k }
    ensures table { seat.new.table_id ≡ seat.old.table_id }
    ensures told { turned K.pictures E.plan E.read (step shared.now.table_id.slots k 4 0 none)
        seat.old.me result seat.new.me }
{
    let _ = e;
    shared.fetch_or::<Turning<K, E>>(seat, k as usize, TURN)
}

/// Serves a read of an alias; answers the word as it was.
pub(crate) fn retire_as<K: Film, E: ReadName>(
    shared: &Shared<K>,
    seat: &mut Seat,
    k: u32,
    e: u32,
) -> u64
    requires table { seat.old.table_id ≡ shared.now.table_id }
    requires words { shared.now.table_id.words ≡ length shared.now.key.entries }
    requires rests { AtRest seat.old.me.0 }
    requires there { k < length shared.now.key.entries }
    requires named { (e ≡ E.read) × (shared.now.key ≡ E.plan) }
    requires may { MayServe shared.now.key seat.old.me.0 e k }
    ensures table { seat.new.table_id ≡ seat.old.table_id }
    ensures told { retired E.plan E.read (step shared.now.table_id.slots k 16 0 none)
        seat.old.me result seat.new.me }
{
    let _ = e;
    shared.fetch_sub::<Retiring<E>>(seat, k as usize, ONE_READ)
}

/// Shares the tile that the seat has in turn, and gives it back.
pub(crate) fn share_in_turn<K: Film>(
    shared: &Shared<K>,
    seat: &mut Seat,
    k: u32,
) -> Result<TileRef, Memory>
    requires table { seat.old.table_id ≡ shared.now.table_id }
    requires words { shared.now.table_id.words ≡ length shared.now.key.entries }
    requires there { k < length shared.now.key.entries }
    requires turn { (e : ℕ) × (seat.old.me.0.turn ≡ Some e) × (source_at shared.now.key e ≡ k) }
    requires out { (t : Tile) × (seat.old.me.1 ≡ (k, Some t) ∷ []) × HoldsTile K.pictures shared.now.key k t }
    ensures table { seat.new.table_id ≡ seat.old.table_id }
    ensures told { seat.new.me ≡ (with_turn seat.old.me.0 None, []) }
    ensures tile { IfOk result (λ t. HoldsTile K.pictures shared.now.key k t) }
{
    let tile = shared.exchange(seat, k as usize, None);
    let Some(tile) = tile else { unreachable!() };
    let result = tile.share();
    shared.exchange(seat, k as usize, Some(tile));
    shared.fetch_and::<Giving>(seat, k as usize, !TURN);
    result
}

/// The tile of an alias for a read that reads it.
pub(crate) fn read<K: Film>(
    shared: &Shared<K>,
    seat: &mut Seat,
    k: u32,
    e: u32,
) -> Result<Reading, Memory>
    requires table { seat.old.table_id ≡ shared.now.table_id }
    requires words { shared.now.table_id.words ≡ length shared.now.key.entries }
    requires rests { AtRest seat.old.me.0 }
    requires empty { seat.old.me.1 ≡ [] }
    requires there { k < length shared.now.key.entries }
    requires may { MayServe shared.now.key seat.old.me.0 e k }
    ensures table { seat.new.table_id ≡ seat.old.table_id }
    ensures told { ReadTold K.pictures shared.now.key k seat.old.me result seat.new.me }
{
    let word = turn_as::<K, Brand>(shared, seat, k, e);
    if word / TURN % 2 != 0 {
        return Ok(Reading::Turn);
    }
    match share_in_turn(shared, seat, k) {
        Ok(tile) => Ok(Reading::Got(tile)),
        Err(Memory) => Err(Memory),
    }
}

/// Lets the tile of an alias go after its last read.
pub(crate) fn let_go<K: Film>(shared: &Shared<K>, seat: &mut Seat, k: u32)
    requires table { seat.old.table_id ≡ shared.now.table_id }
    requires words { shared.now.table_id.words ≡ length shared.now.key.entries }
    requires there { k < length shared.now.key.entries }
    requires leaving { seat.old.me.0.leaving ≡ Some k }
    requires out { (t : Tile) × (seat.old.me.1 ≡ (k, Some t) ∷ []) }
    ensures table { seat.new.table_id ≡ seat.old.table_id }
    ensures told { seat.new.me ≡ (with_cleared seat.old.me.0, []) }
{
    shared.exchange(seat, k as usize, None);
    shared.fetch_or::<Clearing>(seat, k as usize, CLEARED);
}

/// Serves a read of an alias, and answers how many reads of the alias are open after it. At 0 the tile is let go.
pub(crate) fn retire<K: Film>(shared: &Shared<K>, seat: &mut Seat, k: u32, e: u32) -> u32
    requires few { reads_in shared.now.key < 2 ^ 32 }
    requires table { seat.old.table_id ≡ shared.now.table_id }
    requires words { shared.now.table_id.words ≡ length shared.now.key.entries }
    requires rests { AtRest seat.old.me.0 }
    requires empty { seat.old.me.1 ≡ [] }
    requires there { k < length shared.now.key.entries }
    requires may { MayServe shared.now.key seat.old.me.0 e k }
    ensures table { seat.new.table_id ≡ seat.old.table_id }
    ensures told { seat.new.me ≡ (with_met (with_served seat.old.me.0 e None) k (LeftOpen result), []) }
    ensures alone { IsSolo seat.old.me.0 → result ≡ lacking shared.now.key seat.new.me.0.served k }
{
    let word = retire_as::<K, Brand>(shared, seat, k, e);
    let left = (word / ONE_READ - 1) as u32;
    if left == 0 {
        let_go(shared, seat, k);
    }
    left
}
