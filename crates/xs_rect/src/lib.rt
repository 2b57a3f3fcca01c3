//! Rectangles of whole points, and the tiles into which a frame is cut. x grows to the right and y
//! upwards.
#![tactic(auto)]

mod rect;
mod tiling;

pub use rect::Rect;
pub use tiling::tiles;
