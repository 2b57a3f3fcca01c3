ghost use Rattle.std.specs.Prelude.{◌≡◌, ◌≤◌, [], ◌∷◌, ◌++◌, Some, OnOk, OnErr};
ghost use Rattle.xs_outside.specs.Told.{Rose};
ghost use Rattle.xs_outside.specs.Answers.{IsPut, KeepsPut};
ghost use Rattle.xs_outside.specs.Calls.{IsPlannedPut};

use crate::calls::Calls;
use crate::object::Object;
use crate::shelf::{Put, Shelf};
use std::alloc::{AllocError, Global};
use std::marker::Model;
use xs_base::Memory;

/// A shelf in memory. It tells everything.
#[derive(Debug, Drop)]
pub struct MemShelf {
    objects: Vec<Object>,
    calls: Calls,
}

impl Model for MemShelf {
    ghost use Rattle.xs_outside.specs.Files.{MemShelfRecord};

    ghost Value = { MemShelfRecord };

    ghost view = { λ s. record { objects = s.objects.items; calls = s.calls } };
}

impl MemShelf {
    /// An empty shelf. The calls with the numbers in `fails`, from 1, fail.
    pub fn new(alloc: Global, fails: Vec<u64>) -> MemShelf
        ensures { result ≡ record {
          objects = [];
          calls = record { fails = fails.items; made = 0; faults = 0 };
        } }
    {
        MemShelf {
            objects: Vec::new(alloc),
            calls: Calls::new(fails),
        }
    }

    /// The finished files, first to last.
    pub fn objects(&self) -> &[Object]
        ensures { result.now ≡ self.now.objects }
    {
        self.objects.as_slice()
    }

    /// Puts this file last on the shelf.
    fn append(&mut self, alloc: Global, name: &str, bytes: &[u8]) -> Result<(), Memory>
        ensures ok { OnOk result (self.new ≡ record self.old {
          objects = self.old.objects ++ record { name = name.now; bytes = bytes.now } ∷ [];
        }) }
        ensures err { OnErr result (self.new ≡ self.old) }
    {
        let object = Object::new(alloc, name, bytes)?;
        self.objects.push(object).map_err(AllocError::from)?;
        Ok(())
    }
}

#[tactic(auto, unfolding(crate::specs::Told::more))]
impl Shelf for MemShelf {
    ghost objects = { λ s. Some s.objects };

    ghost faults = { λ s. s.calls.faults };

    fn put(&mut self, alloc: Global, name: &str, bytes: &[u8]) -> Put
        ensures answer { IsPut (Some self.old.objects) (Some self.new.objects)
            (record { name = name.now; bytes = bytes.now })
            (Rose self.old.calls.faults self.new.calls.faults) result }
        ensures later { self.old.calls.faults ≤ self.new.calls.faults }
        ensures keeps { KeepsPut self.old.calls.faults self.new.calls.faults result }
        ensures planned { IsPlannedPut self.old.calls self.new.calls result }
    {
        if self.calls.begin() {
            self.calls.fault();
            return Put::Failed;
        }
        let Ok(()) = self.append(alloc, name, bytes) else {
            return Put::Memory;
        };
        Put::Done
    }
}
