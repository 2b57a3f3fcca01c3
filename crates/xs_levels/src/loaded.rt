ghost use Rattle.std.specs.Prelude.{◌≡◌};
ghost use Rattle.xs_levels.specs.Loading.{answer_at};

use xs_rawfile::LevelCode;

/// What loading a section answers. A place is one in the list of the drawings that the section is the first
/// to need, counted from 0: the files of those before it were asked for and read, and the answer is of the
/// drawing at it.
#[derive(Clone, Copy, Debug, PartialEq, Eq)]
pub enum Loaded {
    /// Each drawing that the section needs is held.
    Done,
    /// The file of a drawing is absent, too long or refused.
    Level {
        at: u32,
        drawing: u32,
        code: LevelCode,
    },
    /// With this drawing more bytes would be held than may be.
    Limit {
        at: u32,
        drawing: u32,
    },
    /// The library had a fault.
    ReadFault {
        at: u32,
    },
    /// There was no memory.
    Memory {
        at: u32,
    },
}

/// Why a drawing is not held.
#[derive(Clone, Copy, Debug)]
pub(crate) enum Refusal {
    Level(LevelCode),
    Limit,
    ReadFault,
    Memory,
}

impl Refusal {
    /// The answer where this is the reason at a place of the list.
    pub(crate) fn answer(self, at: u32, drawing: u32) -> Loaded
        ensures { result ≡ answer_at at drawing self }
    {
        match self {
            Refusal::Level(code) => Loaded::Level { at, drawing, code },
            Refusal::Limit => Loaded::Limit { at, drawing },
            Refusal::ReadFault => Loaded::ReadFault { at },
            Refusal::Memory => Loaded::Memory { at },
        }
    }
}
