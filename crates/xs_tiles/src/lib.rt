//! The tiles of a plan's aliases, one after another, by a bench, for tests and for timing. The tests of the benches
//! stand here: what both make of each job, beside the rules and beside values from outside.
#![tactic(auto)]

#[cfg(test)]
mod agree;
#[cfg(test)]
mod held;
#[cfg(test)]
mod random;
#[cfg(test)]
mod rows;
#[cfg(test)]
mod scenes;
#[cfg(test)]
mod short;
mod tile;
#[cfg(test)]
mod tiles;

pub use tile::make_tile;
