//! The sections of a plan at a seat that is alone: one worker leads each to its end, and then its rows are gathered, in
//! any order.
#![tactic(auto)]

mod checks;
mod order;
mod rows;
mod section;
mod whole;

pub use checks::all_drawn;
pub use order::{Order, rows_of};
pub use rows::{gather, gather_alone};
pub use section::lead;
pub use whole::render_all;
