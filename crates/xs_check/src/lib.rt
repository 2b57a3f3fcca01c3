//! Checking a scene: every number names a thing, nothing stands twice where one may, nothing leads back
//! to itself, and every size is within its limit. What passes is a `GoodScene`.
#![tactic(auto)]

mod cycles;
mod files;
mod finding;
mod good;
pub mod laws;
mod links;
mod numbers;
mod overlaps;
mod readers;
mod references;
mod shared;
mod sizes;

pub use good::{GoodScene, check};
