ghost use Rattle.std.specs.Prelude.{◌≡◌, ◌≤◌, [], ◌∷◌, ◌++◌, Some, OnOk, OnErr, take};
ghost use Rattle.xs_outside.specs.Told.{Rose};
ghost use Rattle.xs_outside.specs.Answers.{IsNoted, KeepsLine};
ghost use Rattle.xs_outside.specs.Calls.{IsPlannedLine};

use crate::calls::Calls;
use crate::notes::{Noted, Notes};
use std::alloc::Global;
use std::marker::Model;
use xs_base::Memory;

/// Notes in memory. They tell everything.
#[derive(Debug, Drop)]
pub struct MemNotes {
    bytes: Vec<u8>,
    calls: Calls,
}

impl Model for MemNotes {
    ghost use Rattle.xs_outside.specs.Files.{MemNotesRecord};

    ghost Value = { MemNotesRecord };

    ghost view = { λ n. record { bytes = n.bytes.items; calls = n.calls } };
}

impl MemNotes {
    /// Empty notes. The calls with the numbers in `fails`, from 1, fail, and write only the first
    /// byte of their line, if it has one.
    pub fn new(alloc: Global, fails: Vec<u64>) -> MemNotes
        ensures { result ≡ record {
          bytes = [];
          calls = record { fails = fails.items; made = 0; faults = 0 };
        } }
    {
        MemNotes {
            bytes: Vec::new(alloc),
            calls: Calls::new(fails),
        }
    }

    /// The bytes written.
    pub fn bytes(&self) -> &[u8]
        ensures { result.now ≡ self.now.bytes }
    {
        self.bytes.as_slice()
    }

    /// Writes the first of these bytes, if there is one.
    fn write_first(&mut self, line: &[u8]) -> Result<(), Memory>
        ensures ok { OnOk result (self.new ≡ record self.old { bytes = self.old.bytes ++ take 1 line.now }) }
        ensures err { OnErr result (self.new ≡ self.old) }
    {
        let length = line.len().min(1);
        self.bytes.extend_from_slice(&line[..length])?;
        Ok(())
    }

    /// Writes the line and its end, whole or not at all.
    fn write_whole(&mut self, line: &[u8]) -> Result<(), Memory>
        ensures ok { OnOk result (self.new ≡ record self.old { bytes = self.old.bytes ++ line.now ++ 10 ∷ [] }) }
        ensures err { OnErr result (self.new ≡ self.old) }
    {
        let start = self.bytes.len();
        self.bytes.extend_from_slice(line)?;
        if self.bytes.push(b'\n').is_err() {
            self.bytes.truncate(start);
            return Err(Memory);
        }
        Ok(())
    }
}

#[tactic(auto, unfolding(crate::specs::Told::more))]
impl Notes for MemNotes {
    ghost written = { λ n. Some n.bytes };

    ghost faults = { λ n. n.calls.faults };

    fn line(&mut self, _alloc: Global, bytes: &[u8]) -> Noted
        ensures answer { IsNoted (Some self.old.bytes) (Some self.new.bytes) bytes.now
            (Rose self.old.calls.faults self.new.calls.faults) result }
        ensures later { self.old.calls.faults ≤ self.new.calls.faults }
        ensures keeps { KeepsLine self.old.calls.faults self.new.calls.faults result }
        ensures planned { IsPlannedLine self.old.calls self.new.calls result }
        ensures first_byte { result ≡ Noted.Failed → self.new.bytes ≡ self.old.bytes ++ take 1 bytes.now }
    {
        if self.calls.begin() {
            let Ok(()) = self.write_first(bytes) else {
                return Noted::Memory;
            };
            self.calls.fault();
            return Noted::Failed;
        }
        let Ok(()) = self.write_whole(bytes) else {
            return Noted::Memory;
        };
        Noted::Done
    }
}
