//! A seat that is alone at the cache of a plan.
#![tactic(auto)]

mod plain_desk;
mod store;

pub use plain_desk::PlainDesk;
