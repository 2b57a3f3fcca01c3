//! A row of lists without a common member, as doubly linked lists over arrays.
#![tactic(auto)]

mod chains;

pub use chains::Chains;
