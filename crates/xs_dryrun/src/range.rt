//! The plan of a range of rows.

ghost use Rattle.std.specs.Prelude.{◌≡◌, ◌<◌, ◌≤◌, ◌+◌, ◌-◌, ℕ, None, Some, Err, IfOk, OnOk, length, map};
ghost use Rattle.std.specs.List.{range_with_len};
ghost use Rattle.std.specs.Option.{option_map};
ghost use Rattle.xs_base.specs.declared.limits.TheConstants.{LAST_ROW, LONGEST_CAMERA_SIDE};
ghost use Rattle.xs_rect.specs.Tiles.{tile_areas};
ghost use Rattle.xs_check.specs.Good.{files_of};
ghost use Rattle.xs_meaning.specs.Expressions.{root_of};
ghost use Rattle.xs_plan.specs.declared.limits.TheConstants.{MOST_ROWS};
ghost use Rattle.xs_demand.specs.Limits.{first_limit};
ghost use Rattle.xs_demand.specs.Shown.{ShowsRoots};
ghost use Rattle.xs_dryrun.specs.declared.limits.PlanFault.TheVariants.{Limit};
ghost use Rattle.xs_dryrun.specs.Passing.{greatest_of, what_of};

use crate::limits::{PlanFault, What};
use crate::planner::Planner;
use std::alloc::Global;
use xs_base::Memory;
use xs_check::GoodScene;
use xs_check::laws::drawings_of_rows_are_there;
use xs_demand::renamed::own_names_change_no_expression;
use xs_plan::Plan;

/// The plan of the rows from `from` to `to` of a scene, whose drawings have their own numbers; or the limit that the
/// rows pass first.
pub fn plan(alloc: Global, s: &GoodScene, from: u32, to: u32) -> Result<Plan, PlanFault>
    requires range { (1 ≤ from) × (from ≤ to) × (to ≤ LAST_ROW) × (to + 1 - from ≤ MOST_ROWS) }
    ensures shows { IfOk result (λ p. ShowsRoots (tile_areas s.now.camera.w s.now.camera.h)
        (map (root_of s.now) (range_with_len from (to + 1 - from))) p) }
    ensures drawings { IfOk result (λ p. p.drawings ≡ length (files_of s.now.levels)) }
    ensures none { OnOk result (first_limit (tile_areas s.now.camera.w s.now.camera.h)
        (map (root_of s.now) (range_with_len from (to + 1 - from))) ≡ None) }
    ensures limited { (what : What) (limit : ℕ) → result ≡ Err (Limit what limit)
        → (option_map what_of (first_limit (tile_areas s.now.camera.w s.now.camera.h)
        (map (root_of s.now) (range_with_len from (to + 1 - from)))) ≡ Some what) × (limit ≡ greatest_of what) }
{
    // the drawings of a checked scene are its own
    s.scene();
    drawings_of_rows_are_there();
    own_names_change_no_expression();
    let (w, h) = camera_sides(s);
    let drawings = s.drawings();
    let names = own_names(alloc, drawings)?;
    let mut planner = Planner::new(alloc, w, h, to + 1 - from, drawings)?;
    if let Err(fault) = planner.rows(alloc, s, names.as_slice(), from, to) {
        return Err(fault);
    }
    Ok(planner.finish()?)
}

/// How wide and how high the frames of a scene are.
fn camera_sides(s: &GoodScene) -> (u32, u32)
    ensures w { result.0 ≡ s.now.camera.w }
    ensures h { result.1 ≡ s.now.camera.h }
    ensures wide { (1 ≤ result.0) × (result.0 ≤ LONGEST_CAMERA_SIDE) }
    ensures high { (1 ≤ result.1) × (result.1 ≤ LONGEST_CAMERA_SIDE) }
{
    let camera = &s.scene().camera;
    (camera.w, camera.h)
}

/// The numbers of so many drawings, as their names.
fn own_names(alloc: Global, drawings: u32) -> Result<Vec<u32>, Memory>
    ensures { IfOk result (λ v. v.items ≡ range_with_len 0 drawings) }
{
    let mut names = Vec::new(alloc);
    for d in 0..drawings {
        names.push(d)?;
    }
    Ok(names)
}
