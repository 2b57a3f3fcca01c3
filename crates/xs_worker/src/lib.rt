//! Workers: each leads its targets to ready, through a seat at a cache and a bench.
#![tactic(auto)]

mod advanced;
mod compute;
mod input;
pub mod laws;
mod reads;
mod roots;
mod stack;
mod step;
mod work;
mod worker;

pub use advanced::Advanced;
pub use roots::section_targets;
pub use worker::Worker;
