ghost use Rattle.std.specs.Prelude.{◌≡◌, ◌<◌, ◌≤◌, ◌+◌, true, [], ◌∷◌, List, ℕ, Some, IfOk, length};
ghost use Rattle.xs_plan.specs.Sections.{sections_in};
ghost use Rattle.xs_plan.specs.Needed.{new_drawings, held};
ghost use Rattle.xs_levels.specs.Films.{film_of};
ghost use Rattle.xs_levels.specs.Loading.{IsLoaded, StopsIn, AsksFor, HadFaults};
ghost use Rattle.xs_levels.specs.Stocked.{IsStock, Holds};
ghost use Rattle.xs_top.specs.Causes.{answer_of, is_lost, Fails};
ghost use Rattle.xs_top.specs.Trace.{Outcome};
ghost use Rattle.xs_top.specs.Seen.{OutsideRecord};
ghost use Rattle.xs_top.specs.Leaves.{Keeps, Leaves, OnlyReads};
ghost use Rattle.xs_top.specs.Runs.{Runs, Gives};
ghost use Rattle.xs_top.specs.Writes.{Writes};
ghost use Rattle.xs_levels.specs.Films.{Files};
ghost use Rattle.xs_top.specs.Outcome.{asking, placing};

use crate::status::Status;
use crate::sums::Sum;
use std::alloc::Global;
use xs_base::List;
use xs_levels::{FileTable, Loaded, Stock};
use xs_outside::{Fetched, Library, Noted, Notes, Put, Shelf};
use xs_pixel::Film;
use xs_plan::Plan;

/// The outside of a run: what it reads from and what it writes to.
pub(crate) trait Outside {
    /// The outside as contracts see it.
    ghost view: { Self → OutsideRecord };

    /// Asks for a file of at most `limit` bytes; the answers where there is none and where it is longer.
    fn ask(
        &mut self,
        alloc: Global,
        name: &str,
        limit: u64,
        absent: Status,
        too_long: Status,
    ) -> Result<List<u8>, Status>
        requires absent { is_lost absent ≡ true }
        requires too_long { is_lost too_long ≡ true }
        ensures did { Gives (λ files. asking files name.now limit absent too_long) (view self.old) (view self.new) result }
        ensures bytes { IfOk result (λ bytes. (files : Files) → (view self.old).seen.files ≡ Some files
            → (files name.now ≡ Some bytes) × (length bytes ≤ limit)) }
        ensures keeps { Keeps (view self.old) (view self.new) (answer_of result) }
        ensures fails { Fails result };

    /// Loads into a stock the drawings of a table that a section is the first to need.
    fn load<K: Film, F: FileTable>(
        &mut self,
        alloc: Global,
        stock: &mut Stock<K>,
        table: &F,
        p: &Plan,
        s: u32,
    ) -> Loaded
        requires section { s < sections_in p.now }
        requires next { stock.old.loaded ≡ s }
        requires ended { stock.old.ended ≡ s }
        requires drawings { p.now.drawings ≤ length (F.told table.now).files }
        requires stock { IsStock p.now (F.told table.now) stock.old }
        requires film { K.pictures ≡ film_of (view self.old).seen.files (F.told table.now) }
        ensures told { (files : Files) → (view self.old).seen.files ≡ Some files
            → IsLoaded files (F.told table.now) stock.old.limit stock.old.bytes (new_drawings p.now s) result }
        ensures place { StopsIn (new_drawings p.now s) result }
        ensures asked { AsksFor (F.told table.now) (new_drawings p.now s)
            (view self.old).seen.told.asked (view self.new).seen.told.asked result }
        ensures faults { HadFaults (view self.old).seen.files
            (view self.old).seen.faults.library (view self.new).seen.faults.library result }
        ensures later { (view self.old).seen.faults.library ≤ (view self.new).seen.faults.library }
        ensures reads { OnlyReads (view self.old) (view self.new) }
        ensures stock { result ≡ Loaded.Done → IsStock p.now (F.told table.now) stock.new }
        ensures sections { result ≡ Loaded.Done → (stock.new.loaded ≡ s + 1) × (stock.new.ended ≡ s) }
        ensures holds { result ≡ Loaded.Done → Holds stock.new.held (held p.now s) }
        ensures limit { result ≡ Loaded.Done → stock.new.limit ≡ stock.old.limit };

    /// Puts a finished file on the shelf.
    fn place(&mut self, alloc: Global, name: &str, bytes: &[u8]) -> Result<(), Status>
        ensures did { (next : Outcome) → Runs (placing (record { name = name.now; bytes = bytes.now }) next) (λ _. next)
            (view self.old).seen (view self.new).seen result }
        ensures keeps { Keeps (view self.old) (view self.new) (answer_of result) }
        ensures fails { Fails result };

    /// The sum of the bytes of the pixels of all frames that were put on the shelf, where it is told.
    fn sum(&self) -> Option<u64>
        ensures { result ≡ (view self.now).seen.told.sum };

    /// Writes a line, or several with an end between each two.
    fn note(&mut self, alloc: Global, line: &[u8]) -> Result<(), Status>
        ensures wrote { Writes (line.now ∷ []) (view self.old).seen (view self.new).seen result }
        ensures leaves { Leaves (view self.old).seen (view self.new).seen (answer_of result) }
        ensures same { (view self.new).names ≡ (view self.old).names }
        ensures fails { Fails result };
}

/// A library, a shelf and notes that are borrowed for a run.
pub(crate) struct Borrows<'l, 's, 'n, L: Library, S: Shelf, T: Notes, A: Sum> {
    pub(crate) library: &'l mut L,
    pub(crate) shelf: &'s mut S,
    pub(crate) notes: &'n mut T,
    /// The sum of the bytes of the pixels of all frames that were put on the shelf, where it is wanted.
    pub(crate) sum: A,
}

impl<L: Library, S: Shelf, T: Notes, A: Sum> Outside for Borrows<'_, '_, '_, L, S, T, A> {
    ghost view = { λ o. record {
      seen = record {
        files = L.files o.library.now;
        told = record { asked = L.asked o.library.now; shelf = S.objects o.shelf.now; notes = T.written o.notes.now; sum = A.told o.sum };
        faults = record { library = L.faults o.library.now; shelf = S.faults o.shelf.now; notes = T.faults o.notes.now };
      };
      names = record { library = o.library.ghost_name; shelf = o.shelf.ghost_name; notes = o.notes.ghost_name };
    } };

    fn ask(
        &mut self,
        alloc: Global,
        name: &str,
        limit: u64,
        absent: Status,
        too_long: Status,
    ) -> Result<List<u8>, Status> {
        match self.library.get(alloc, name, limit) {
            Fetched::Bytes(bytes) => Ok(List::of(bytes)),
            Fetched::Absent => Err(absent),
            Fetched::TooLong => Err(too_long),
            Fetched::Failed => Err(Status::ReadFault),
            Fetched::Memory => Err(Status::Memory),
        }
    }

    fn load<K: Film, F: FileTable>(
        &mut self,
        alloc: Global,
        stock: &mut Stock<K>,
        table: &F,
        p: &Plan,
        s: u32,
    ) -> Loaded {
        stock.load(alloc, self.library, table, p, s)
    }

    fn place(&mut self, alloc: Global, name: &str, bytes: &[u8]) -> Result<(), Status> {
        match self.shelf.put(alloc, name, bytes) {
            Put::Done => {
                self.sum.add(bytes);
                Ok(())
            }
            Put::Failed => Err(Status::WriteFault),
            Put::Memory => Err(Status::Memory),
        }
    }

    fn sum(&self) -> Option<u64> {
        self.sum.total()
    }

    fn note(&mut self, alloc: Global, line: &[u8]) -> Result<(), Status> {
        match self.notes.line(alloc, line) {
            Noted::Done => Ok(()),
            Noted::Failed => Err(Status::WriteFault),
            Noted::Memory => Err(Status::Memory),
        }
    }
}
