//! Pixels and the eight operations on them, pictures, and points.
#![tactic(auto)]

mod block;
mod film;
pub mod laws;
mod operation;
mod pixel;
mod style;

pub use block::mattes;
pub use film::Film;
pub use operation::{Op, add, apply, matte_in, matte_out, max, min, mul255, mult, over, sub};
pub use pixel::Pixel;
pub use style::Style;
