//! What a scene is made of, one step down: what a row of a sheet, or one of its columns or nodes at a row,
//! leads to. A step takes no memory; what it lends it borrows from the scene.
#![tactic(auto)]

pub mod laws;
mod offset;
mod spot;
mod step;
mod styles;
mod terminals;

pub use offset::Offset;
pub use spot::{At, LONGEST_WAY, Spot, input, row};
pub use step::{Step, step_at};
pub use styles::Styles;
pub use terminals::Terminals;
