ghost use Rattle.std.specs.Prelude.{◌≤◌, ℕ, List, Option};
ghost use Rattle.xs_outside.specs.declared.object.Object.{Object as NamedFile};
ghost use Rattle.xs_outside.specs.Told.{Rose};
ghost use Rattle.xs_outside.specs.Answers.{IsPut, KeepsPut};

use std::alloc::Global;

/// What a shelf answers.
#[derive(Clone, Copy, Debug, PartialEq, Eq)]
pub enum Put {
    /// The file stands on the shelf.
    Done,
    /// The shelf had a fault.
    Failed,
    /// There was no memory.
    Memory,
}

/// A place for finished files.
pub trait Shelf {
    /// The finished files, first to last, where the shelf tells them.
    ghost objects: { Self → Option (List NamedFile) };

    /// How many faults there were: a number below 2^64 that never falls.
    ghost faults: { Self → ℕ };

    /// Puts a file of this name with these bytes last on the shelf. Where one of that name is there
    /// already, it stays among the files told; a folder, which tells none, replaces it. A call that is
    /// not `Done` leaves the files as they were.
    fn put(&mut self, alloc: Global, name: &str, bytes: &[u8]) -> Put
        ensures answer { IsPut (objects self.old) (objects self.new)
            (record { name = name.now; bytes = bytes.now })
            (Rose (faults self.old) (faults self.new)) result }
        ensures later { faults self.old ≤ faults self.new }
        ensures keeps { KeepsPut (faults self.old) (faults self.new) result };
}
