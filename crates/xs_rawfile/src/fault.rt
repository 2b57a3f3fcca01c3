ghost use Rattle.std.specs.Prelude.{◌≡◌};
ghost use Rattle.xs_rawfile.specs.declared.fault.LevelFault.TheVariants.{Memory};
ghost use Rattle.xs_rawfile.specs.Codes.{level_code_number};

use std::alloc::AllocError;

/// Why a file is not a drawing of its level, or why there is no file.
#[derive(Clone, Copy, Debug, PartialEq, Eq)]
pub enum LevelCode {
    /// The file doesn't begin with `XRL1`.
    Magic,
    /// The kind is neither colour nor CM32.
    Kind,
    /// The kind is not that of the level.
    KindDiffers,
    /// A side is not from 1 to 4096.
    Size,
    /// The corner is further than 65536 from the origin along an axis.
    Place,
    /// The file is shorter than its header, or not as long as its header says.
    Length,
    /// The first pixel of which a colour exceeds the matte, by its number from 0 in file order.
    NotPremultiplied(u32),
    /// There is no such file.
    Absent,
    /// The file is longer than any drawing.
    TooLong,
}

impl LevelCode {
    /// The number of the code, from 1 to 9.
    pub fn number(self) -> u32
        ensures { result ≡ level_code_number self }
    {
        match self {
            LevelCode::Magic => 1,
            LevelCode::Kind => 2,
            LevelCode::KindDiffers => 3,
            LevelCode::Size => 4,
            LevelCode::Place => 5,
            LevelCode::Length => 6,
            LevelCode::NotPremultiplied(_) => 7,
            LevelCode::Absent => 8,
            LevelCode::TooLong => 9,
        }
    }
}

/// Why there is no drawing of some bytes.
#[derive(Clone, Copy, Debug, PartialEq, Eq)]
pub enum LevelFault {
    /// The first fault of the bytes.
    Code(LevelCode),
    /// Memory was wanted and there was none.
    Memory,
}

impl From<AllocError> for LevelFault {
    ghost from_gives = { λ _ fault. fault ≡ Memory };

    fn from(_error: AllocError) -> Self {
        LevelFault::Memory
    }
}
