use std::alloc::{AllocError, AllocFailed};
use std::io;
use xs_base::Memory;

/// Why a part ends before its time is told.
#[derive(Debug, Drop)]
pub(crate) enum Fault {
    /// Memory was wanted and there was none.
    Memory,
    /// The part's own input is not what it should be.
    Input,
    /// The clock or standard output failed.
    Io(io::Error),
}

impl From<Memory> for Fault {
    fn from(_memory: Memory) -> Self {
        Fault::Memory
    }
}

impl From<AllocError> for Fault {
    fn from(_error: AllocError) -> Self {
        Fault::Memory
    }
}

/// The value that found no place is let go.
impl<T: Drop> From<AllocFailed<T>> for Fault {
    fn from(_error: AllocFailed<T>) -> Self {
        Fault::Memory
    }
}

impl From<io::Error> for Fault {
    fn from(error: io::Error) -> Self {
        Fault::Io(error)
    }
}

impl From<Fault> for io::Error {
    fn from(fault: Fault) -> Self {
        match fault {
            Fault::Memory => io::Error::from(io::ErrorKind::OutOfMemory),
            Fault::Input => io::Error::from(io::ErrorKind::InvalidInput),
            Fault::Io(error) => error,
        }
    }
}
