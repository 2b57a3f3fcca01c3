//! Tests of the cache of words: events one after another, and seats in two threads.
#![tactic(auto)]

mod chief;
#[cfg(test)]
mod making;
#[cfg(test)]
mod plans;
#[cfg(test)]
mod rows;
mod seat;
#[cfg(test)]
mod threads;

pub use chief::{show, tells_open_roots};
pub use seat::{finish, give_up, looks, serve, wins};
