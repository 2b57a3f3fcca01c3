ghost use Rattle.std.specs.Prelude.{◌≡◌, ◌≤◌, ◌*◌, ◌<◌, IfOk};
ghost use Rattle.xs_base.specs.declared.limits.TheConstants.{LONGEST_CAMERA_SIDE};
ghost use Rattle.xs_rect.specs.Tiles.{tiles_along, tile_area, tile_areas, IsCut};

use crate::rect::Rect;
use std::alloc::{AllocError, Global};

/// The side of a tile, in points.
const TILE_SIDE: u32 = 64;

/// The tiles of a frame of `w` by `h` points whose lower left corner is the origin: 64 by 64 from that
/// corner on, the last of a row or column smaller; from bottom to top, in each row left to right.
pub fn tiles(alloc: Global, w: u32, h: u32) -> Result<Vec<Rect>, AllocError>
    requires wide { (1 ≤ w) × (w ≤ LONGEST_CAMERA_SIDE) }
    requires high { (1 ≤ h) × (h ≤ LONGEST_CAMERA_SIDE) }
    ensures cut { IfOk result (λ tiles. IsCut w h tiles.items) }
    ensures each { IfOk result (λ tiles. tiles.items ≡ tile_areas w h) }
{
    let tiles = all_tiles(alloc, w, h)?;
    Ok(tiles)
}

/// The tiles of the frame, each by its number.
fn all_tiles(alloc: Global, w: u32, h: u32) -> Result<Vec<Rect>, AllocError>
    requires wide { (1 ≤ w) × (w ≤ LONGEST_CAMERA_SIDE) }
    requires high { (1 ≤ h) × (h ≤ LONGEST_CAMERA_SIDE) }
    ensures { IfOk result (λ tiles. tiles.items ≡ tile_areas w h) }
{
    let count = w.div_ceil(TILE_SIDE) * h.div_ceil(TILE_SIDE);
    (0..count).map(|k| tile(w, h, k)).collect(alloc)
}

/// The tile with number `k`.
fn tile(w: u32, h: u32, k: u32) -> Rect
    requires wide { (1 ≤ w) × (w ≤ LONGEST_CAMERA_SIDE) }
    requires high { (1 ≤ h) × (h ≤ LONGEST_CAMERA_SIDE) }
    requires within { k < tiles_along w * tiles_along h }
    ensures { result ≡ tile_area w h k }
{
    let across = w.div_ceil(TILE_SIDE);
    let (x, y) = (k % across * TILE_SIDE, k / across * TILE_SIDE);
    Rect {
        x: x as i32,
        y: y as i32,
        w: (w - x).min(TILE_SIDE),
        h: (h - y).min(TILE_SIDE),
    }
}
