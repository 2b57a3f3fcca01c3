//! The atomic steps of a seat.
ghost use Rattle.std.specs.Prelude.{◌≡◌, ◌≢◌, ◌<◌, ◌+◌, ◌^◌, true, None, Some, [], ◌∷◌, length};
ghost use Rattle.xs_plan.specs.Reads.{readers_of};
ghost use Rattle.xs_core.specs.Calls.{HoldsTile};
ghost use mathlib.Core.Option.{none};
ghost use Rattle.atomic_table.specs.Table.{step};
ghost use Rattle.xs_word_desk.specs.Words.{Finished, encode};
ghost use Rattle.xs_word_desk.specs.Seen.{wins, makes, loses};
ghost use Rattle.xs_word_desk.specs.Changes.{AtRest, with_made, with_lost};
ghost use Rattle.xs_word_desk.specs.Plays.{Recalls, claimed, looked};

use crate::plays::{Abandoning, Claiming, Finishing, Looking, Recalling, TakingOut};
use crate::rule::Rule;
use crate::view::View;
use crate::words::{GIVEN_UP, TAKEN, UNCLAIMED, finished};
use xs_pixel::Film;
use xs_plan::Plan;
use xs_raster::TileRef;

pub(crate) type Shared<K> = atomic_table::Shared<Option<TileRef>, View, Plan, Rule<K>>;

pub(crate) type Seat = atomic_table::Seat<Option<TileRef>, View>;

/// Claims an alias where it is idle, and answers its word as it was.
pub(crate) fn claim<K: Film>(shared: &Shared<K>, seat: &mut Seat, k: u32) -> u64
    requires table { seat.old.table_id ≡ shared.now.table_id }
    requires words { shared.now.table_id.words ≡ length shared.now.key.entries }
    requires rests { AtRest seat.old.me.0 }
    requires there { k < length shared.now.key.entries }
    ensures table { seat.new.table_id ≡ seat.old.table_id }
    ensures told { claimed (step shared.now.table_id.slots k 0 1 none) seat.old.me result seat.new.me }
{
    shared.compare_exchange::<Claiming>(seat, k as usize, UNCLAIMED, TAKEN)
}

/// Answers the word of an alias.
pub(crate) fn look<K: Film>(shared: &Shared<K>, seat: &mut Seat, k: u32) -> u64
    requires table { seat.old.table_id ≡ shared.now.table_id }
    requires words { shared.now.table_id.words ≡ length shared.now.key.entries }
    requires rests { AtRest seat.old.me.0 }
    requires there { k < length shared.now.key.entries }
    ensures table { seat.new.table_id ≡ seat.old.table_id }
    ensures told { looked (step shared.now.table_id.slots k 0 0 none) seat.old.me result seat.new.me }
{
    shared.load::<Looking>(seat, k as usize)
}

/// Looks only for what the words and the slots tell of any seat.
pub(crate) fn recall<K: Film>(shared: &Shared<K>, seat: &mut Seat)
    requires table { seat.old.table_id ≡ shared.now.table_id }
    requires words { shared.now.table_id.words ≡ length shared.now.key.entries }
    requires some_there { 0 < length shared.now.key.entries }
    ensures table { seat.new.table_id ≡ seat.old.table_id }
    ensures told { (seat.new.me ≡ seat.old.me) × Recalls seat.old.me.0 }
{
    shared.load::<Recalling>(seat, 0);
}

/// Puts the tile of an alias that the seat has claimed, which so many reads read.
pub(crate) fn finish<K: Film>(
    shared: &Shared<K>,
    seat: &mut Seat,
    k: u32,
    readers: u32,
    tile: TileRef,
)
    requires table { seat.old.table_id ≡ shared.now.table_id }
    requires words { shared.now.table_id.words ≡ length shared.now.key.entries }
    requires rests { AtRest seat.old.me.0 }
    requires empty { seat.old.me.1 ≡ [] }
    requires there { k < length shared.now.key.entries }
    requires claimed { makes k seat.old.me.0 + loses k seat.old.me.0 < wins k seat.old.me.0 }
    requires readers { readers ≡ readers_of shared.now.key k }
    requires value { HoldsTile K.pictures shared.now.key k tile }
    ensures table { seat.new.table_id ≡ seat.old.table_id }
    ensures told { seat.new.me ≡ (with_made seat.old.me.0 k, []) }
{
    shared.load::<TakingOut>(seat, k as usize);
    shared.exchange(seat, k as usize, Some(tile));
    shared.swap::<Finishing>(seat, k as usize, finished(readers));
}

/// Gives up an alias that the seat has claimed.
pub(crate) fn abandon<K: Film>(shared: &Shared<K>, seat: &mut Seat, k: u32)
    requires table { seat.old.table_id ≡ shared.now.table_id }
    requires words { shared.now.table_id.words ≡ length shared.now.key.entries }
    requires rests { AtRest seat.old.me.0 }
    requires there { k < length shared.now.key.entries }
    requires claimed { makes k seat.old.me.0 + loses k seat.old.me.0 < wins k seat.old.me.0 }
    ensures table { seat.new.table_id ≡ seat.old.table_id }
    ensures told { seat.new.me ≡ (with_lost seat.old.me.0 k, seat.old.me.1) }
{
    shared.swap::<Abandoning>(seat, k as usize, GIVEN_UP);
}
