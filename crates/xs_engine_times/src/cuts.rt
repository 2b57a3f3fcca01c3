//! The frames of a scene, and the tiles that cut them.

ghost use Rattle.std.specs.Prelude.{◌≡◌, ◌≤◌, OnOk};
ghost use Rattle.xs_base.specs.declared.limits.TheConstants.{LONGEST_CAMERA_SIDE};
ghost use Rattle.xs_rect.specs.Tiles.{IsCut, tile_areas};

use std::alloc::{AllocError, Global};
use xs_check::GoodScene;
use xs_plan::Plan;
use xs_rect::tiles;

/// How wide and high the frames of a scene are.
pub(crate) fn sides(good: &GoodScene) -> (u32, u32)
    ensures w { result.0 ≡ good.now.camera.w }
    ensures h { result.1 ≡ good.now.camera.h }
    ensures wide { (1 ≤ result.0) × (result.0 ≤ LONGEST_CAMERA_SIDE) }
    ensures high { (1 ≤ result.1) × (result.1 ≤ LONGEST_CAMERA_SIDE) }
{
    let camera = &good.scene().camera;
    (camera.w, camera.h)
}

/// Tells that the tiles of a plan of a scene cut its frames.
pub(crate) fn cut(
    alloc: Global,
    good: &GoodScene,
    p: &Plan,
    w: u32,
    h: u32,
) -> Result<(), AllocError>
    requires wide { (1 ≤ w) × (w ≤ LONGEST_CAMERA_SIDE) }
    requires high { (1 ≤ h) × (h ≤ LONGEST_CAMERA_SIDE) }
    requires w { w ≡ good.now.camera.w }
    requires h { h ≡ good.now.camera.h }
    requires tiles { p.now.tiles ≡ tile_areas good.now.camera.w good.now.camera.h }
    ensures { OnOk result (IsCut w h p.now.tiles) }
{
    let made = tiles(alloc, w, h)?;
    drop(made);
    Ok(())
}
