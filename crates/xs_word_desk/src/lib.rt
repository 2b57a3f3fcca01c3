//! The cache of words: the tiles of a plan, with one atomic word and one slot for each alias, and seats that work at it
//! at once.
#![tactic(auto)]

mod cache;
mod closing;
mod crossing;
mod desk;
pub mod laws;
mod opening;
mod plays;
mod reads;
mod rule;
mod seats;
mod steps;
mod view;
mod words;

pub use cache::{Cache, Pass};
pub use closing::Closed;
pub use crossing::caches_cross_threads;
pub use desk::WordDesk;
