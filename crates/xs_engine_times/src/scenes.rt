//! Scenes and the plans of their rows.

ghost use Rattle.std.specs.Prelude.{◌≡◌, ◌≤◌, IfOk};
ghost use Rattle.xs_plan.specs.declared.limits.TheConstants.{MOST_ROWS};
ghost use Rattle.xs_rect.specs.Tiles.{tile_areas};

use crate::fault::Fault;
use std::alloc::Global;
use xs_check::{GoodScene, check};
use xs_dryrun::plan;
use xs_plan::Plan;
use xs_scene_json::decode;

/// The scene that a text says, checked.
pub(crate) fn good_scene(alloc: Global, text: &str) -> Result<GoodScene, Fault> {
    let Ok(scene) = decode(alloc, text.as_bytes()) else {
        return Err(Fault::Input);
    };
    match check(alloc, scene) {
        Ok(good) => Ok(good),
        Err(_) => Err(Fault::Input),
    }
}

/// The plan of so many rows of a scene from the first one on.
pub(crate) fn plan_of(alloc: Global, good: &GoodScene, rows: u32) -> Result<Plan, Fault>
    requires { (1 ≤ rows) × (rows ≤ MOST_ROWS) }
    ensures { IfOk result (λ p. p.tiles ≡ tile_areas good.now.camera.w good.now.camera.h) }
{
    match plan(alloc, good, 1, rows) {
        Ok(plan) => Ok(plan),
        Err(_) => Err(Fault::Input),
    }
}
