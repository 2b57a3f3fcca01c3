ghost use Rattle.std.specs.Prelude.{◌≡◌, ◌≤◌, [], ◌∷◌, ◌++◌, Some, OnOk, OnErr};
ghost use Rattle.std.specs.Option.{option_map};
ghost use Rattle.xs_outside.specs.Told.{Rose, more};
ghost use Rattle.xs_outside.specs.Answers.{IsFetched, IsAsked, KeepsFetch};
ghost use Rattle.xs_outside.specs.Calls.{IsPlannedFetch};
ghost use Rattle.xs_outside.specs.Files.{file_in};

use crate::calls::Calls;
use crate::library::{Fetched, Library};
use crate::object::Object;
use std::alloc::{AllocError, Global};
use std::marker::Model;
use xs_base::{List, Memory};

/// Files in memory. Of two files with one name the first counts. It tells everything.
#[derive(Debug, Drop)]
pub struct MemLibrary {
    files: Vec<Object>,
    asked: Vec<List<u8>>,
    calls: Calls,
}

impl Model for MemLibrary {
    ghost use Rattle.xs_outside.specs.Files.{MemLibraryRecord};

    ghost Value = { MemLibraryRecord };

    ghost view = { λ l. record { files = l.files.items; asked = l.asked.items; calls = l.calls } };
}

impl MemLibrary {
    /// These files, with nothing asked yet. The calls with the numbers in `fails`, from 1, fail.
    pub fn new(alloc: Global, files: Vec<Object>, fails: Vec<u64>) -> MemLibrary
        ensures { result ≡ record {
          files = files.items;
          asked = [];
          calls = record { fails = fails.items; made = 0; faults = 0 };
        } }
    {
        MemLibrary {
            files,
            asked: Vec::new(alloc),
            calls: Calls::new(fails),
        }
    }

    /// The files, in the order in which they were given.
    pub fn files(&self) -> &[Object]
        ensures { result.now ≡ self.now.files }
    {
        self.files.as_slice()
    }

    /// The names that were asked for, first to last.
    pub fn asked(&self) -> &[List<u8>]
        ensures { result.now ≡ self.now.asked }
    {
        self.asked.as_slice()
    }

    /// Puts this name last among those asked for.
    fn ask(&mut self, alloc: Global, name: &str) -> Result<(), Memory>
        ensures ok { OnOk result (self.new ≡ record self.old { asked = self.old.asked ++ name.now ∷ [] }) }
        ensures err { OnErr result (self.new ≡ self.old) }
    {
        let copy = Vec::from_slice(alloc, name.as_bytes())?;
        self.asked.push(List::of(copy)).map_err(AllocError::from)?;
        Ok(())
    }

    /// The first file of this name.
    fn find(&self, name: &str) -> Option<&Object>
        ensures { option_map (λ file. file.now.bytes) result ≡ file_in self.now.files name.now }
    {
        self.files
            .iter()
            .find(|file| file.name.items() == name.as_bytes())
    }

    /// What the files say to this name and limit, with a copy of the file.
    fn look_up(&self, alloc: Global, name: &str, limit: u64) -> Fetched
        ensures answer { IsFetched (Some (file_in self.now.files)) name.now limit ⊥ result }
    {
        match self.find(name) {
            None => Fetched::Absent,
            Some(file) => fetched(alloc, file.bytes.items(), limit),
        }
    }
}

/// A copy of these bytes, if there are at most `limit`.
fn fetched(alloc: Global, bytes: &[u8], limit: u64) -> Fetched
    ensures answer { IsFetched (Some (λ _. Some bytes.now)) [] limit ⊥ result }
{
    if bytes.len() as u64 > limit {
        return Fetched::TooLong;
    }
    match Vec::from_slice(alloc, bytes) {
        Ok(copy) => Fetched::Bytes(copy),
        Err(_) => Fetched::Memory,
    }
}

#[tactic(auto, unfolding(crate::specs::Told::more))]
impl Library for MemLibrary {
    ghost files = { λ l. Some (file_in l.files) };

    ghost asked = { λ l. Some l.asked };

    ghost faults = { λ l. l.calls.faults };

    fn get(&mut self, alloc: Global, name: &str, limit: u64) -> Fetched
        ensures answer { IsFetched (Some (file_in self.old.files)) name.now limit
            (Rose self.old.calls.faults self.new.calls.faults) result }
        ensures asked { IsAsked (Some self.old.asked) (Some self.new.asked) name.now result }
        ensures same { Some (file_in self.new.files) ≡ Some (file_in self.old.files) }
        ensures later { self.old.calls.faults ≤ self.new.calls.faults }
        ensures keeps { KeepsFetch self.old.calls.faults self.new.calls.faults result }
        ensures kept { self.new.files ≡ self.old.files }
        ensures planned { IsPlannedFetch self.old.calls self.new.calls result }
    {
        let fails = self.calls.begin();
        let Ok(()) = self.ask(alloc, name) else {
            return Fetched::Memory;
        };
        if fails {
            self.calls.fault();
            return Fetched::Failed;
        }
        self.look_up(alloc, name, limit)
    }
}
