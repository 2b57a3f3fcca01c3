ghost use Rattle.std.specs.Prelude.{◌≡◌, ◌≤◌, IfOk, OnOk};
ghost use Rattle.xs_base.specs.declared.limits.TheConstants.{LONGEST_CAMERA_SIDE};
ghost use Rattle.xs_rect.specs.Tiles.{IsCut, tile_areas};
ghost use Rattle.xs_frames.specs.Frames.{clear_frame};

use std::alloc::Global;
use xs_base::Memory;
use xs_frames::Frame;
use xs_pixel::Film;
use xs_plan::Plan;
use xs_rect::tiles;

/// A clear frame of `w` by `h` points for the rows of a plan that has the tiles of such a frame.
pub fn new_frame<K: Film>(alloc: Global, p: &Plan, w: u32, h: u32) -> Result<Frame<K>, Memory>
    requires wide { (1 ≤ w) × (w ≤ LONGEST_CAMERA_SIDE) }
    requires high { (1 ≤ h) × (h ≤ LONGEST_CAMERA_SIDE) }
    requires tiles { p.now.tiles ≡ tile_areas w h }
    ensures { IfOk result (λ f. f ≡ clear_frame p.now w h) }
{
    tiles_cut_the_frame(alloc, w, h)?;
    let frame = Frame::new(alloc, p, w, h)?;
    Ok(frame)
}

/// Tells that the tiles of a frame cut it, which is told where they are made.
fn tiles_cut_the_frame(alloc: Global, w: u32, h: u32) -> Result<(), Memory>
    requires wide { (1 ≤ w) × (w ≤ LONGEST_CAMERA_SIDE) }
    requires high { (1 ≤ h) × (h ≤ LONGEST_CAMERA_SIDE) }
    ensures { OnOk result (IsCut w h (tile_areas w h)) }
{
    let _tiles = tiles(alloc, w, h)?;
    Ok(())
}
