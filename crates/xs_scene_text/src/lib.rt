//! What a scene text says of each thing of a scene, both ways: the thing that is read from a value, and
//! the value that is written for it. What is written is read as the same thing again.
#![tactic(auto)]

mod laws;
mod work;

pub use laws::{what_is_written_is_read_again, what_is_written_is_shallow};
pub use work::{Work, op_word, work_named};
