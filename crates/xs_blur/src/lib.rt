//! The box blur of a raster: each pixel becomes the mean of a square round it.
#![tactic(auto)]

mod columns;
mod divisor;
mod line;
mod moving;
mod plain;
mod sums;

pub use moving::blur;
pub use plain::blur_plain;
