//! The end of a cache.
ghost use Rattle.std.specs.Prelude.{◌≡◌, ◌<◌, ◌^◌, ℕ, true, false, slice_index_or};
ghost use Rattle.xs_word_desk.specs.Slots.{tiles_below};

use crate::cache::{Cache, Pass};
use std::alloc::Global;
use std::snapshot::Snapshot;
use xs_pixel::Film;
use xs_raster::TileRef;

/// The closing record of a cache, which only its closing makes. It keeps the number of tiles alone; contracts see the
/// plan, the aliases that were made and the reads that were served too.
#[derive(Drop)]
pub struct Closed {
    tiles: u32,
    chief: Snapshot<Pass>,
}

impl Closed {
    ghost use Rattle.xs_word_desk.specs.Closing.{closed_tiles};

    /// How many tiles were still held.
    pub fn tiles(&self) -> u32
        ensures { result ≡ closed_tiles self.now }
    {
        self.tiles
    }
}

impl<K: Film> Cache<K> {
    ghost use Rattle.std.specs.Prelude.{map};
    ghost use Rattle.xs_core.specs.Views.{held_count};
    ghost use Rattle.xs_word_desk.specs.Desks.{home_of, desk_view, is_solo, Keeps};
    ghost use Rattle.xs_word_desk.specs.Closing.{closed_plan, closed_made, closed_served, closed_tiles, ShowsTiles};

    /// Ends the cache: takes the tiles out and answers the closing record. The chief's seat is the only one.
    pub fn close(self, pass: Pass) -> Closed
        requires home { home_of pass.seat.table_id ≡ home_of self.table.shared.table_id }
        requires keeps { Keeps self.table.shared.key pass.seat.me.0 }
        requires alone { is_solo pass.seat.me.0 ≡ true }
        ensures plan { closed_plan result ≡ self.table.shared.key }
        ensures made { closed_made result ≡ map (λ s. s.item) pass.seat.me.0.made }
        ensures served { closed_served result ≡ map (λ s. s.item) pass.seat.me.0.served }
        ensures shown { ShowsTiles K.pictures self.table.shared.key pass.seat.id pass.seat.me.0 (closed_tiles result) }
        ensures tiles { closed_tiles result ≡ held_count self.table.shared.key (desk_view pass.seat.table_id pass.seat.me.0) }
    {
        let chief = Snapshot::of(&pass);
        let Cache {
            table,
            reader_counts: _,
            read_sources: _,
        } = self;
        let Pass { seat } = pass;
        let tiles = take_out(table.close_with(seat));
        Closed { tiles, chief }
    }
}

/// Takes the tiles out of the slots, and answers how many there are.
fn take_out(mut closed: atomic_table::Closed<Option<TileRef>, Global>) -> u32
    requires full { (k : ℕ) → k < closed.slots.len → slice_index_or closed.slots.filled k false ≡ true }
    requires few { closed.slots.len < 2 ^ 32 }
    ensures { result ≡ tiles_below closed.slots.len closed.slots.items }
{
    let mut tiles = 0;
    let slots = closed.slot_count();
    for i in 0..slots {
        let tile = closed.take(i);
        if tile.is_some() {
            tiles += 1;
        }
    }
    closed.free();
    tiles
}
