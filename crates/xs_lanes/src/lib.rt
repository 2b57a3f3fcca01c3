//! Whole rows of pixel bytes by vectors of lanes, each equal to its plain definition.
#![tactic(auto)]

mod cm32;
mod fill;
mod kernel;
mod lanes;
mod operations;
pub mod plain;
mod rows;

pub use cm32::cm32_row;
pub use fill::fill_row;
pub use rows::op_row;
