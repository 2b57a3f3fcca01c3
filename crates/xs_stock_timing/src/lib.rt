//! Goes through the sections of a plan: by a stock that loads their drawings and lets them go, and by bare reads of the
//! same files.
#![tactic(auto)]

mod bare;
mod stocked;

pub use bare::read_all;
pub use stocked::{Stop, load_all};
