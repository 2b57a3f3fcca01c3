//! The words of the command line: their grammar, and the first fault of words that are outside it.
#![tactic(auto)]

mod command;
mod fault;
mod laws;
mod parts;
mod reading;

pub use command::Command;
pub use fault::{Usage, WordsFault};
pub use laws::{first_fault_is_told, words_are_read_back};
pub use reading::read_words;
