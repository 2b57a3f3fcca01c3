//! The expressions that rows enter, each once, with the growth of its tiles and the numbers of its inputs.
//! The aliases of each tile are these expressions, so that no tile needs a look-up of its own.
#![tactic(auto)]

mod entered;
pub mod laws;
mod place;

pub use entered::Entered;
