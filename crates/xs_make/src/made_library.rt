ghost use Rattle.std.specs.Prelude.{◌≡◌, ◌≤◌, None, Some};
ghost use Rattle.xs_outside.specs.Answers.{IsAsked, IsFetched, KeepsFetch};
ghost use Rattle.xs_outside.specs.Files.{file_in};
ghost use Rattle.xs_outside.specs.Told.{Rose};

use std::alloc::Global;
use std::marker::Model;
use xs_base::List;
use xs_outside::{Fetched, Library, MemLibrary, Object};

/// Files in memory, as generated ones, that can always be read. Of two files with one name the first counts. It tells
/// its files, and not what it was asked for.
#[derive(Debug, Drop)]
pub struct MadeLibrary {
    inner: MemLibrary,
}

impl Model for MadeLibrary {
    ghost use Rattle.std.specs.Prelude.{◌≡◌, [], List};
    ghost use Rattle.xs_outside.specs.declared.object.Object.{Object};

    ghost Value = { List Object };

    ghost view = { λ l. l.inner.files };

    ghost invariant = { λ l. l.inner.calls.fails ≡ [] };
}

impl MadeLibrary {
    /// A library of these files. Takes no memory.
    pub fn new(alloc: Global, files: List<Object>) -> MadeLibrary
        ensures { result ≡ files }
    {
        let inner = MemLibrary::new(alloc, files.into_items(), Vec::new(alloc));
        MadeLibrary { inner }
    }
}

#[tactic(auto, unfolding(xs_outside::specs::Told::more))]
impl Library for MadeLibrary {
    ghost files = { λ files. Some (file_in files) };

    ghost asked = { λ _. None };

    ghost faults = { λ _. 0 };

    fn get(&mut self, alloc: Global, name: &str, limit: u64) -> Fetched
        ensures answer { IsFetched (Some (file_in self.old)) name.now limit (Rose 0 0) result }
        ensures asked { IsAsked None None name.now result }
        ensures same { Some (file_in self.new) ≡ Some (file_in self.old) }
        ensures later { 0 ≤ 0 }
        ensures keeps { KeepsFetch 0 0 result }
        ensures kept { self.new ≡ self.old }
    {
        self.inner.get(alloc, name, limit)
    }
}
