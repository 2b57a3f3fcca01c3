//! What the renderer asks of the outside: a library of files to read, a shelf for finished files,
//! and notes for lines of text. Each is a trait whose contract says what every answer means; over
//! them stand implementations in memory, which fail at chosen calls, and a library that tells nothing.
//!
//! An implementation may tell its content to contracts or keep it untold (`None`). Each counts its
//! faults; the count never falls. A call is said to have a fault where the count rose in it, or
//! stands at the largest number, past which it cannot rise.
#![tactic(auto)]

mod calls;
mod library;
mod mem_library;
mod mem_notes;
mod mem_shelf;
mod notes;
mod object;
mod quiet_library;
mod shelf;

pub use library::{Fetched, Library};
pub use mem_library::MemLibrary;
pub use mem_notes::MemNotes;
pub use mem_shelf::MemShelf;
pub use notes::{Noted, Notes};
pub use object::Object;
pub use quiet_library::QuietLibrary;
pub use shelf::{Put, Shelf};
