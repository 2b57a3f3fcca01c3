ghost use Rattle.std.specs.Prelude.{◌≡◌, ◌≤◌, ℕ, List, Option};
ghost use Rattle.xs_outside.specs.Told.{Rose};
ghost use Rattle.xs_outside.specs.Answers.{IsFetched, IsAsked, KeepsFetch};
ghost use Rattle.xs_outside.specs.declared.library.Fetched.{Fetched};

use std::alloc::Global;

/// What a library answers.
#[derive(Debug, Drop)]
pub enum Fetched {
    /// The whole file.
    Bytes(Vec<u8>),
    /// There is no file of this name.
    Absent,
    /// The file has more bytes than the limit.
    TooLong,
    /// The library had a fault.
    Failed,
    /// There was no memory.
    Memory,
}

/// Named files that can be read.
pub trait Library {
    /// The bytes of each file by its name, where the library tells them. No call changes them.
    ghost files: { Self → Option (List ℕ → Option (List ℕ)) };

    /// The names that were asked for, first to last, where the library tells them.
    ghost asked: { Self → Option (List (List ℕ)) };

    /// How many faults there were: a number below 2^64 that never falls.
    ghost faults: { Self → ℕ };

    /// What more an implementation says of a call: from this state, of this name and under this limit,
    /// it may give this answer and leave that state.
    ghost get_gives: { Self → List ℕ → ℕ → Fetched → Self → Type 0 } = { λ _ _ _ _ _. Unit {0} };

    /// The file of this name, if it has at most `limit` bytes.
    fn get(&mut self, alloc: Global, name: &str, limit: u64) -> Fetched
        ensures answer { IsFetched (files self.old) name.now limit
            (Rose (faults self.old) (faults self.new)) result }
        ensures asked { IsAsked (asked self.old) (asked self.new) name.now result }
        ensures same { files self.new ≡ files self.old }
        ensures later { faults self.old ≤ faults self.new }
        ensures keeps { KeepsFetch (faults self.old) (faults self.new) result }
        ensures gives { get_gives self.old name.now limit result self.new };
}
