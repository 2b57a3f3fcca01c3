//! The plain evaluator: the pixels of a scene's rows as the rules say them, one point at a time. Faster
//! engines are measured against it.
#![tactic(auto)]

mod drawing;
mod filters;
mod frame;
mod held;
pub mod laws;
mod position;
mod sums;
mod values;
mod walk;

pub use frame::{frame_direct, held_drawings_make_the_frame, pixel_at};
pub use held::are_drawings_held;
