//! The printed lines of aliases, one or many at a time.
#![tactic(auto)]

mod buffer;
pub mod laws;
mod line;
mod lines;

pub use line::alias_text;
pub use lines::fill_lines;
