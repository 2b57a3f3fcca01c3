ghost use Rattle.xs_fault.specs.declared.fault.FieldFault.TheVariants as errors;
ghost use Rattle.std.specs.Prelude.{◌≡◌};

use crate::code::SceneCode;
use crate::path::Path;
use std::alloc::{AllocError, AllocFailed};
use xs_base::Memory;

/// What is wrong, and where.
#[derive(Debug, Drop)]
pub struct SceneFault {
    /// What is wrong.
    pub code: SceneCode,
    /// The place of it in the text.
    pub path: Path,
}

/// Why a field could not be read.
#[derive(Debug, Drop)]
pub enum FieldFault {
    /// The text has a fault there.
    Fault(SceneFault),
    /// There was no memory.
    Memory,
}

impl From<Memory> for FieldFault {
    ghost from_gives = { λ _ e. e ≡ errors.Memory };

    fn from(_error: Memory) -> FieldFault {
        FieldFault::Memory
    }
}

impl From<AllocError> for FieldFault {
    ghost from_gives = { λ _ e. e ≡ errors.Memory };

    fn from(_error: AllocError) -> FieldFault {
        FieldFault::Memory
    }
}

impl<T: Drop> From<AllocFailed<T>> for FieldFault {
    ghost from_gives = { λ _ e. e ≡ errors.Memory };

    fn from(_error: AllocFailed<T>) -> FieldFault {
        FieldFault::Memory
    }
}
