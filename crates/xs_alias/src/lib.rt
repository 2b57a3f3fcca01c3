//! Numbers for expressions: equal keys have equal numbers, so that equal expressions are made and held
//! once.
#![tactic(auto)]

mod interner;
mod key;
pub mod laws;

pub use interner::Interner;
pub use key::Key;
