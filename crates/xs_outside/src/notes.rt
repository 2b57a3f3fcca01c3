ghost use Rattle.std.specs.Prelude.{◌≤◌, ℕ, List, Option};
ghost use Rattle.xs_outside.specs.Told.{Rose};
ghost use Rattle.xs_outside.specs.Answers.{IsNoted, KeepsLine};

use std::alloc::Global;

/// What notes answer.
#[derive(Clone, Copy, Debug, PartialEq, Eq)]
pub enum Noted {
    /// The line and its end stand in the notes.
    Done,
    /// The notes had a fault; a part of the line may stand in them.
    Failed,
    /// There was no memory.
    Memory,
}

/// Lines of text for the user.
pub trait Notes {
    /// The bytes that were written, where the notes tell them.
    ghost written: { Self → Option (List ℕ) };

    /// How many faults there were: a number below 2^64 that never falls.
    ghost faults: { Self → ℕ };

    /// Writes these bytes and the end of the line, `\n`.
    fn line(&mut self, alloc: Global, bytes: &[u8]) -> Noted
        ensures answer { IsNoted (written self.old) (written self.new) bytes.now
            (Rose (faults self.old) (faults self.new)) result }
        ensures later { faults self.old ≤ faults self.new }
        ensures keeps { KeepsLine (faults self.old) (faults self.new) result };
}
