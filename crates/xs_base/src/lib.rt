//! What the crates above share and what knows nothing of pictures: lists that may cross threads, the error
//! for want of memory, lists that hold each number once, the rows of a range and its sections, and the
//! limits of the formats.
#![tactic(auto)]

pub mod laws;
pub mod limits;
mod list;
mod memory;
mod threads;

pub use list::List;
pub use memory::Memory;
pub use threads::{crosses_threads, list_crosses_threads};
