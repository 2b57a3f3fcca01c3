//! The cache of a plan, and the chief's seat between its desks.
ghost use Rattle.std.specs.Prelude.{◌≡◌, ◌<◌, ◌^◌, ℕ, [], IfOk, length};
ghost use Rattle.xs_plan.specs.Reads.{reads_in, readers_of, sources};
ghost use Rattle.xs_core.specs.Kept.{IsCounted};
ghost use Rattle.xs_core.specs.States.{source_at};

use crate::desk::WordDesk;
use crate::opening::{Table, open_table};
use crate::steps::{Seat, Shared};
use std::alloc::Global;
use xs_base::Memory;
use xs_core::{Desk, edge_of};
use xs_pixel::Film;
use xs_plan::Plan;
use xs_plan::laws::reads_have_their_sources;

/// The tiles of a plan, which many seats fill and read at once. One atomic word for each alias says how far the alias
/// is; one slot for each alias holds its tile. Aliases and reads are numbered from 0.
#[derive(Drop)]
pub struct Cache<K: Film> {
    pub(crate) table: Table<K>,
    /// How often each alias is read.
    pub(crate) reader_counts: Vec<u32>,
    /// The alias that each read reads.
    pub(crate) read_sources: Vec<u32>,
    ghost words: { table.shared.table_id.words ≡ length table.shared.key.entries },
    ghost there: { (e : ℕ) → e < reads_in table.shared.key → source_at table.shared.key e < length table.shared.key.entries },
    ghost some: { 0 < length table.shared.key.entries },
    ghost few: { length table.shared.key.entries < 2 ^ 32 },
    ghost counted: { IsCounted table.shared.key reader_counts.items },
    ghost sourced: { read_sources.items ≡ sources table.shared.key },
    ghost few_reads: { reads_in table.shared.key < 2 ^ 32 },
}

/// A seat at a cache, between two of its desks. It has no bytes.
#[derive(Drop)]
pub struct Pass {
    pub(crate) seat: Seat,
    ghost bare: { seat.me.1 ≡ [] },
}

impl<K: Film> Cache<K> {
    ghost use Rattle.xs_core.specs.Views.{IsFresh};
    ghost use Rattle.xs_word_desk.specs.Desks.{home_of, desk_view, Keeps};

    /// The cache of a plan at which nothing has happened, and the pass of its chief, who is alone. All memory of the
    /// table is taken here.
    pub fn new(alloc: Global, p: &Plan) -> Result<(Cache<K>, Pass), Memory>
        ensures plan { IfOk result (λ t. t.0.table.shared.key ≡ p.now) }
        ensures keeps { IfOk result (λ t. Keeps p.now t.1.seat.me.0) }
        ensures home { IfOk result (λ t. home_of t.1.seat.table_id ≡ home_of t.0.table.shared.table_id) }
        ensures fresh { IfOk result (λ t. IsFresh (desk_view t.1.seat.table_id t.1.seat.me.0)) }
    {
        let _aliases = p.aliases();
        let _reads = p.reads();
        reads_have_their_sources();
        let reader_counts = count_readers(alloc, p)?;
        let read_sources = list_sources(alloc, p)?;
        let (table, seat) = open_table(alloc, p)?;
        let cache = Cache {
            table,
            reader_counts,
            read_sources,
        };
        Ok((cache, Pass { seat }))
    }

    /// The desk of a seat.
    pub fn desk<'a>(&'a self, pass: Pass) -> WordDesk<'a, K>
        requires home { home_of pass.seat.table_id ≡ home_of self.now.table.shared.table_id }
        requires keeps { Keeps self.now.table.shared.key pass.seat.me.0 }
        ensures plan { ⟦<WordDesk<'a, K> as Desk<K>>⟧.plan result ≡ self.now.table.shared.key }
        ensures view { ⟦<WordDesk<'a, K> as Desk<K>>⟧.view result ≡ desk_view pass.seat.table_id pass.seat.me.0 }
        ensures apart { result.seat.me.0.apart ≡ pass.seat.me.0.apart }
    {
        WordDesk::of(self, pass)
    }

    /// The words and the slots.
    pub(crate) fn shared(&self) -> &Shared<K>
        ensures { result.now ≡ self.now.table.shared }
    {
        &self.table.shared
    }

    /// How often an alias is read.
    pub(crate) fn readers(&self, k: u32) -> u32
        requires { k < length self.now.table.shared.key.entries }
        ensures { result ≡ readers_of self.now.table.shared.key k }
    {
        self.reader_counts[k as usize]
    }

    /// The alias that a read reads.
    pub(crate) fn source(&self, e: u32) -> u32
        requires { e < reads_in self.now.table.shared.key }
        ensures source { result ≡ source_at self.now.table.shared.key e }
        ensures there { result < length self.now.table.shared.key.entries }
    {
        self.read_sources[e as usize]
    }
}

/// How often each alias of a plan is read.
fn count_readers(alloc: Global, p: &Plan) -> Result<Vec<u32>, Memory>
    ensures { IfOk result (λ v. IsCounted p.now v.items) }
{
    let mut readers = Vec::with_capacity(alloc, p.aliases() as usize)?;
    for k in 0..p.aliases() {
        readers.push_reserved(p.readers(k));
    }
    Ok(readers)
}

/// The alias that each read of a plan reads.
fn list_sources(alloc: Global, p: &Plan) -> Result<Vec<u32>, Memory>
    ensures { IfOk result (λ v. v.items ≡ sources p.now) }
{
    let mut list = Vec::with_capacity(alloc, p.reads() as usize)?;
    for e in 0..p.reads() {
        list.push_reserved(edge_of(p, e).source);
    }
    Ok(list)
}
