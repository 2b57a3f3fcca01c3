use std::alloc::{AllocError, AllocFailed};
use std::io;
use xs_base::Memory;

/// Why the program ends before all scenes were drawn.
#[derive(Debug, Drop)]
pub enum Failure {
    /// There was no memory.
    Memory,
    /// A part of a scene was drawn out of its range.
    OutOfRange,
    /// A line could not be printed.
    Output(io::Error),
}

impl From<Memory> for Failure {
    fn from(_error: Memory) -> Self {
        Failure::Memory
    }
}

impl From<AllocError> for Failure {
    fn from(_error: AllocError) -> Self {
        Failure::Memory
    }
}

/// The value that found no place is let go.
impl<T: Drop> From<AllocFailed<T>> for Failure {
    fn from(_error: AllocFailed<T>) -> Self {
        Failure::Memory
    }
}

impl From<io::Error> for Failure {
    fn from(error: io::Error) -> Self {
        Failure::Output(error)
    }
}
