ghost use Rattle.std.specs.Prelude.{◌≡◌, []};
ghost use Rattle.xs_word_desk.specs.Desks.{Keeps};

use crate::cache::{Cache, Pass};
use crate::steps::Seat;
use crate::words::{claim_answer, look_answer};
use crate::{reads, seats, steps};
use xs_base::Memory;
use xs_core::{Claim, Desk, Look, Reading};
use xs_pixel::Film;
use xs_raster::TileRef;

/// A seat at a cache, of which many may work at once. None of its calls waits, and only `read` takes memory.
#[derive(Drop)]
pub struct WordDesk<'a, K: Film> {
    cache: &'a Cache<K>,
    seat: Seat,
    ghost same: { seat.table_id ≡ cache.now.table.shared.table_id },
    ghost keeps: { Keeps cache.now.table.shared.key seat.me.0 },
    ghost bare: { seat.me.1 ≡ [] },
}

impl<'a, K: Film> WordDesk<'a, K> {
    ghost use Rattle.std.specs.Prelude.{◌≢◌, ◌↔◌, true, length};
    ghost use Rattle.xs_word_desk.specs.Desks.{home_of, desk_view, SplitTells, JoinTells, MoreApart, LessApart, HasNothing};

    /// The desk of a seat.
    pub(crate) fn of(cache: &'a Cache<K>, pass: Pass) -> WordDesk<'a, K>
        requires home { home_of pass.seat.table_id ≡ home_of cache.now.table.shared.table_id }
        requires keeps { Keeps cache.now.table.shared.key pass.seat.me.0 }
        ensures cache { result.cache.now ≡ cache.now }
        ensures seat { (result.seat.me.0 ≡ pass.seat.me.0) × (pass.seat.table_id ≡ cache.now.table.shared.table_id) }
    {
        let Pass { seat } = pass;
        WordDesk { cache, seat }
    }

    /// Leaves the cache with the seat.
    pub fn leave(self) -> Pass
        ensures keeps { Keeps (⟦<WordDesk<'a, K> as Desk<K>>⟧.plan self.entry) result.seat.me.0 }
        ensures view { desk_view result.seat.table_id result.seat.me.0 ≡ ⟦<WordDesk<'a, K> as Desk<K>>⟧.view self.entry }
        ensures apart { result.seat.me.0.apart ≡ self.entry.seat.me.0.apart }
    {
        let WordDesk { cache: _, seat } = self;
        Pass { seat }
    }

    /// Tells that a chief is alone exactly where no seat that it split off is apart.
    pub fn tells_whether_alone(&self)
        ensures { (⟦<WordDesk<'a, K> as Desk<K>>⟧.view self.now).number ≡ 0
            → ((⟦<WordDesk<'a, K> as Desk<K>>⟧.view self.now).solo ≡ true) ↔ (length self.now.seat.me.0.apart ≡ 0) }
    {
        let _ = self;
    }

    /// Splits a seat with the next number off the chief. It knows what the chief knows.
    pub fn split(&mut self) -> WordDesk<'a, K>
        requires { (⟦<WordDesk<'a, K> as Desk<K>>⟧.view self.old).number ≡ 0 }
        ensures plan { (⟦<WordDesk<'a, K> as Desk<K>>⟧.plan self.new ≡ ⟦<WordDesk<'a, K> as Desk<K>>⟧.plan self.old)
            × (⟦<WordDesk<'a, K> as Desk<K>>⟧.plan result ≡ ⟦<WordDesk<'a, K> as Desk<K>>⟧.plan self.old) }
        ensures told { SplitTells (⟦<WordDesk<'a, K> as Desk<K>>⟧.view self.old)
            (⟦<WordDesk<'a, K> as Desk<K>>⟧.view result) (⟦<WordDesk<'a, K> as Desk<K>>⟧.view self.new) }
        ensures apart { MoreApart self.old.seat.me.0.apart self.new.seat.me.0.apart result.seat.me.0.number }
    {
        let seat = seats::split(self.cache.shared(), &mut self.seat);
        WordDesk {
            cache: self.cache,
            seat,
        }
    }

    /// Joins a desk of the same cache that has nothing claimed to the chief, which gets its entries and what it knows.
    pub fn join(&mut self, other: WordDesk<'a, K>)
        requires chief { (⟦<WordDesk<'a, K> as Desk<K>>⟧.view self.old).number ≡ 0 }
        requires other { (⟦<WordDesk<'a, K> as Desk<K>>⟧.view other).number ≢ 0 }
        requires home { (⟦<WordDesk<'a, K> as Desk<K>>⟧.view other).home ≡ (⟦<WordDesk<'a, K> as Desk<K>>⟧.view self.old).home }
        requires plan { ⟦<WordDesk<'a, K> as Desk<K>>⟧.plan other ≡ ⟦<WordDesk<'a, K> as Desk<K>>⟧.plan self.old }
        requires settled { HasNothing (⟦<WordDesk<'a, K> as Desk<K>>⟧.view other) }
        ensures plan { ⟦<WordDesk<'a, K> as Desk<K>>⟧.plan self.new ≡ ⟦<WordDesk<'a, K> as Desk<K>>⟧.plan self.old }
        ensures told { JoinTells (⟦<WordDesk<'a, K> as Desk<K>>⟧.view self.old)
            (⟦<WordDesk<'a, K> as Desk<K>>⟧.view other.entry) (⟦<WordDesk<'a, K> as Desk<K>>⟧.view self.new) }
        ensures apart { LessApart self.old.seat.me.0.apart self.new.seat.me.0.apart
            (⟦<WordDesk<'a, K> as Desk<K>>⟧.view other.entry).number }
    {
        let WordDesk { cache: _, seat } = other;
        seats::join(self.cache.shared(), &mut self.seat, seat);
        steps::recall(self.cache.shared(), &mut self.seat);
    }
}

impl<'a, K: Film> Desk<K> for WordDesk<'a, K> {
    ghost use Rattle.xs_word_desk.specs.Desks.{desk_view};
    ghost use Rattle.xs_word_desk.specs.DeskLaw.{desk_ok};

    ghost plan = { λ d. d.cache.now.table.shared.key };

    ghost view = { λ d. desk_view d.cache.now.table.shared.table_id d.seat.me.0 };

    fn claim(&mut self, k: u32) -> Claim {
        claim_answer(steps::claim(self.cache.shared(), &mut self.seat, k))
    }

    fn look(&mut self, k: u32) -> Look {
        look_answer(steps::look(self.cache.shared(), &mut self.seat, k))
    }

    fn finish(&mut self, k: u32, t: TileRef) {
        let readers = self.cache.readers(k);
        steps::finish(self.cache.shared(), &mut self.seat, k, readers, t);
    }

    fn abandon(&mut self, k: u32) {
        steps::abandon(self.cache.shared(), &mut self.seat, k);
    }

    fn read(&mut self, e: u32) -> Result<Reading, Memory> {
        let source = self.cache.source(e);
        reads::read(self.cache.shared(), &mut self.seat, source, e)
    }

    fn retire(&mut self, e: u32) -> u32 {
        let source = self.cache.source(e);
        reads::retire(self.cache.shared(), &mut self.seat, source, e)
    }

    ghost sound = { λ d. desk_ok d.cache.now.table.shared.key d.cache.now.table.shared.table_id d.seat.me.0 d.keeps };
}
