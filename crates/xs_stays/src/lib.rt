//! What of the spots of a scene an offset or dropped styles may change: whether a drawing stays in a spot after
//! clear inputs have vanished, and which styles count there. Each spot is gone through once.
#![tactic(auto)]

mod drawing;
mod found;
pub mod laws;
mod set;
mod walk;

pub use found::{Found, Remembered};
pub use set::StyleSet;
pub use walk::stay;
