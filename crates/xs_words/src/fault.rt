use std::alloc::AllocError;
use xs_base::Memory;

/// Why words are no command. A fault of one word has its number; the command itself is word 1.
#[derive(Clone, Copy, Debug, PartialEq, Eq)]
pub enum Usage {
    /// There is no word.
    NoCommand,
    /// The first word is no command.
    Unknown,
    /// The command takes more words, or fewer.
    Count,
    /// The word is no number: one to nine ASCII digits.
    Number(u32),
    /// The number is out of its range.
    Range(u32),
    /// The word is no name, or too long a base.
    Name(u32),
}

/// Why no command was read.
#[derive(Clone, Copy, Debug, PartialEq, Eq)]
pub enum WordsFault {
    /// The words are no command.
    Usage(Usage),
    /// There was no memory for the names of the command.
    Memory,
}

impl From<Usage> for WordsFault {
    ghost use Rattle.std.specs.Prelude.{◌≡◌};
    ghost use Rattle.xs_words.specs.declared.fault.WordsFault.TheVariants as outcome;

    ghost from_gives = { λ usage fault. fault ≡ outcome.Usage usage };

    fn from(usage: Usage) -> Self {
        WordsFault::Usage(usage)
    }
}

impl From<Memory> for WordsFault {
    ghost use Rattle.std.specs.Prelude.{◌≡◌};
    ghost use Rattle.xs_words.specs.declared.fault.WordsFault.TheVariants as outcome;

    ghost from_gives = { λ _ fault. fault ≡ outcome.Memory };

    fn from(_memory: Memory) -> Self {
        WordsFault::Memory
    }
}

impl From<AllocError> for WordsFault {
    ghost use Rattle.std.specs.Prelude.{◌≡◌};
    ghost use Rattle.xs_words.specs.declared.fault.WordsFault.TheVariants as outcome;

    ghost from_gives = { λ _ fault. fault ≡ outcome.Memory };

    fn from(_error: AllocError) -> Self {
        WordsFault::Memory
    }
}
