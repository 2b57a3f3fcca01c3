//! The tiles of a plan, by a bench.

ghost use Rattle.std.specs.Prelude.{◌≡◌, ◌<◌, None, length};

use crate::make_tile;
use std::alloc::Global;
use std::process::Abort;
use xs_base::Memory;
use xs_bench::Bench;
use xs_pixel::Film;
use xs_plan::Plan;
use xs_raster::{Raster, Tile};
use xs_rawfile::Drawings;

/// Adds the tile of the next alias.
pub(crate) fn add_tile<K: Film, B: Bench>(
    rt: &impl Abort,
    alloc: Global,
    bench: &mut B,
    p: &Plan,
    k: u32,
    tiles: &mut Vec<Tile>,
    d: &Drawings<K>,
) -> Result<(), Memory>
    requires untold { K.pictures ≡ None }
    requires there { k < length p.now.entries }
{
    match make_tile(alloc, bench, p, k, tiles, d)? {
        Some(tile) => tiles.push(tile)?,
        None => panic!(rt; "the inputs of alias {k}"),
    }
    Ok(())
}

/// The tiles of all aliases of a plan.
pub(crate) fn all_tiles<K: Film, B: Bench>(
    rt: &impl Abort,
    alloc: Global,
    bench: &mut B,
    p: &Plan,
    d: &Drawings<K>,
) -> Result<Vec<Tile>, Memory>
    requires { K.pictures ≡ None }
{
    let mut tiles = Vec::new(alloc);
    for k in 0..p.aliases() {
        add_tile(rt, alloc, bench, p, k, &mut tiles, d)?;
    }
    Ok(tiles)
}

/// Whether two rasters have the same pixels in the row of points with the y of this point.
fn is_same_row(a: &Raster, b: &Raster, x: i32, y: i32) -> bool {
    a.rect().contains(x, y) && b.rect().contains(x, y) && a.row(y) == b.row(y)
}

/// Whether two rasters have the same rectangle and the same pixels.
pub(crate) fn are_same(a: &Raster, b: &Raster) -> bool {
    let rect = a.rect();
    for row in 0..rect.h() {
        if !is_same_row(a, b, rect.x(), rect.y() + row as i32) {
            return false;
        }
    }
    rect == b.rect()
}
