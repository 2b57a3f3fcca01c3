//! The plan of a range of rows of a scene: what they demand, tile by tile, without a pixel.
#![tactic(auto)]

mod fill;
mod limits;
mod next;
mod planner;
mod range;
mod row;
mod rows;
mod whole;

pub use limits::{PlanFault, What};
pub use planner::Planner;
pub use range::plan;
