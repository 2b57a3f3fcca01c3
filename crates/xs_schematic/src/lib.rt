//! The schematic of a sheet: the order in which its nodes can be made.
#![tactic(auto)]

mod visits;

pub use visits::order;
