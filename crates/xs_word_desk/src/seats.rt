//! Seats that are split off and joined.
ghost use Rattle.std.specs.Prelude.{◌≡◌, ◌≢◌, ◌<◌, ◌≤◌, ◌+◌, ℕ, [], true, length};
ghost use Rattle.xs_word_desk.specs.Seen.{wins, makes, loses};
ghost use Rattle.xs_word_desk.specs.Changes.{AtRest, with_split, split_off, with_joined, joined_view};

use crate::steps::{Seat, Shared};
use crate::view::View;
use atomic_table::{Join, Split};
use xs_pixel::Film;

/// Splits a seat off the chief.
struct Splitting;

impl Split<View> for Splitting {
    ghost left = { with_split };

    ghost right = { split_off };
}

/// Joins a seat to the chief.
struct Joining;

impl Join<View> for Joining {
    ghost both = { with_joined };

    ghost spent = { joined_view };
}

/// Splits a seat with the next number off the chief. It knows what the chief knows.
pub(crate) fn split<K: Film>(shared: &Shared<K>, seat: &mut Seat) -> Seat
    requires table { seat.old.table_id ≡ shared.now.table_id }
    requires words { shared.now.table_id.words ≡ length shared.now.key.entries }
    requires some_there { 0 < length shared.now.key.entries }
    requires rests { AtRest seat.old.me.0 }
    requires chief { seat.old.me.0.number ≡ 0 }
    ensures table { (seat.new.table_id ≡ seat.old.table_id) × (result.table_id ≡ seat.old.table_id) }
    ensures left { seat.new.me ≡ (with_split seat.old.me.0, seat.old.me.1) }
    ensures new { result.me ≡ (split_off seat.old.me.0, []) }
{
    shared.split_seat::<Splitting>(seat)
}

/// Joins a seat that has nothing claimed to the chief, which gets its entries and what it knows.
pub(crate) fn join<K: Film>(shared: &Shared<K>, seat: &mut Seat, other: Seat)
    requires table { (seat.old.table_id ≡ shared.now.table_id) × (other.table_id ≡ shared.now.table_id) }
    requires words { shared.now.table_id.words ≡ length shared.now.key.entries }
    requires some_there { 0 < length shared.now.key.entries }
    requires rests { AtRest seat.old.me.0 × AtRest other.me.0 }
    requires empty { other.me.1 ≡ [] }
    requires chief { seat.old.me.0.number ≡ 0 }
    requires other { other.me.0.number ≢ 0 }
    requires settled { (k : ℕ) → wins k other.me.0 ≤ makes k other.me.0 + loses k other.me.0 }
    ensures table { seat.new.table_id ≡ seat.old.table_id }
    ensures both { seat.new.me ≡ (with_joined seat.old.me.0 other.me.0, seat.old.me.1) }
{
    shared.join_seat::<Joining>(seat, other);
}
