ghost use Rattle.std.specs.Prelude.{◌≡◌};
ghost use Rattle.xs_build.specs.declared.stop.Stop.TheVariants.{Memory};

use std::alloc::AllocFailed;
use xs_base::Memory as WantOfMemory;

/// Why the root of a row was not entered.
#[derive(Clone, Copy, Debug, PartialEq, Eq)]
pub enum Stop {
    /// More would be entered than may be.
    Full,
    /// Memory was wanted and there was none.
    Memory,
}

impl From<WantOfMemory> for Stop {
    ghost from_gives = { λ _ stop. stop ≡ Memory };

    fn from(_error: WantOfMemory) -> Self {
        Stop::Memory
    }
}

/// The value that found no place is let go.
impl<T: Drop> From<AllocFailed<T>> for Stop {
    ghost from_gives = { λ _ stop. stop ≡ Memory };

    fn from(_error: AllocFailed<T>) -> Self {
        Stop::Memory
    }
}
