//! The whole life of a plan's aliases at a seat that is alone, with blank tiles, for tests and for timing: each alias
//! is made, and then each read is served. The tests of the cache stand here.
#![tactic(auto)]

#[cfg(test)]
mod events;
mod life;
mod plans;
#[cfg(test)]
mod seat;

pub use life::{Served, make, make_first, put, serve, serve_first, serve_tile};
pub use plans::squared;
