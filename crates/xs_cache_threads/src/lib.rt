//! Times the calls of four seats at the cache of words, each in a thread of its own and with a block of its own.
#![tactic(auto)]

mod crew;

pub use crew::{Blocks, least_by_four};
