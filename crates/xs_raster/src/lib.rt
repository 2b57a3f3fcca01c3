//! Rasters: rectangles of premultiplied pixels, and the numbered tiles that are shared by reference.
//! Rows go from the lowest up, and each from left to right.
#![tactic(auto)]

mod raster;
mod rows;
mod tile;
mod tile_ref;

pub use raster::{LONGEST_BLANK_SIDE, Raster};
pub use rows::paste_into;
pub use tile::Tile;
pub use tile_ref::TileRef;
use xs_base::crosses_threads;

/// Rasters, tiles and references to tiles may be sent to another thread, and shared with it.
pub fn rasters_cross_threads() {
    crosses_threads::<Raster>();
    crosses_threads::<Tile>();
    crosses_threads::<TileRef>();
}
