ghost use Rattle.std.specs.Prelude.{◌≡◌};
ghost use Rattle.xs_palette.specs.declared.fault.PaletteFault.TheVariants.{Memory};

use std::alloc::AllocError;

/// Why there is no palette of some styles.
#[derive(Clone, Copy, Debug, PartialEq, Eq)]
pub enum PaletteFault {
    /// There are more styles than a palette may have.
    TooMany,
    /// Memory was wanted and there was none.
    Memory,
}

impl From<AllocError> for PaletteFault {
    ghost from_gives = { λ _ fault. fault ≡ Memory };

    fn from(_error: AllocError) -> Self {
        PaletteFault::Memory
    }
}
