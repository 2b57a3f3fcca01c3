//! The start and the end of a plan.

ghost use Rattle.std.specs.Prelude.{◌≡◌, ◌<◌, ◌≤◌, ◌^◌, ℕ, List, [], IfOk, length};
ghost use Rattle.xs_base.specs.declared.limits.TheConstants.{LONGEST_CAMERA_SIDE};
ghost use Rattle.xs_rect.specs.Tiles.{tile_areas};
ghost use Rattle.xs_meaning.specs.Expressions.{Expr};
ghost use Rattle.xs_plan.specs.Draft.{empty_draft};
ghost use Rattle.xs_plan.specs.declared.limits.TheConstants.{MOST_ROWS, MOST_TILES};
ghost use Rattle.xs_demand.specs.Blocks.{Spread};
ghost use Rattle.xs_demand.specs.Shown.{ShowsRoots};
ghost use Rattle.xs_dryrun.specs.declared.rows.Rows.{Rows as RowNumbers};
ghost use Rattle.xs_dryrun.specs.Filling.{IsFrame};
ghost use Rattle.xs_dryrun.specs.Planned.{Planned};

use crate::rows::Rows;
use std::alloc::Global;
use xs_base::Memory;
use xs_demand::aliases::visits_add_what_they_reach;
use xs_demand::shown::shown_jobs_ask_for_their_inputs;
use xs_plan::{Builder, Plan};
use xs_rect::{Rect, tiles};

/// A plan of so many rows on these tiles, and the numbers of its aliases; no row is added yet.
pub(crate) fn start(alloc: Global, tiles: Vec<Rect>, rows: u32) -> Result<(Builder, Rows), Memory>
    requires frame { IsFrame tiles.items }
    requires some_tiles { 1 ≤ length tiles.items }
    requires few_tiles { length tiles.items ≤ MOST_TILES }
    requires some_rows { 1 ≤ rows }
    requires few_rows { rows ≤ MOST_ROWS }
    ensures draft { IfOk result (λ p. p.0 ≡ empty_draft tiles.items rows) }
    ensures many { IfOk result (λ p. p.1.tiles ≡ length tiles.items) }
    ensures planned { IfOk result (λ p. (drawings : ℕ) → Planned drawings [] [] p.1 p.0) }
{
    let count = tiles.len() as u32;
    let builder = Builder::new(alloc, tiles, rows)?;
    Ok((builder, Rows::new(alloc, count)))
}

/// The plan, where all its rows were added and there are so many drawings.
pub(crate) fn finish(builder: Builder, drawings: u32) -> Result<Plan, Memory>
    requires planned { (roots : List Expr) × (l : List Spread) × (rows : RowNumbers)
        × Planned drawings roots l rows builder × (length roots ≡ builder.rows) }
    ensures drawings { IfOk result (λ p. p.drawings ≡ drawings) }
    ensures shows { IfOk result (λ p. (roots : List Expr) (l : List Spread) (rows : RowNumbers)
        → Planned drawings roots l rows builder → ShowsRoots builder.plan.tiles roots p) }
{
    visits_add_what_they_reach();
    shown_jobs_ask_for_their_inputs();
    builder.finish(drawings)
}

/// The tiles of a frame of `w` by `h` points.
pub(crate) fn frame_tiles(alloc: Global, w: u32, h: u32) -> Result<Vec<Rect>, Memory>
    requires wide { (1 ≤ w) × (w ≤ LONGEST_CAMERA_SIDE) }
    requires high { (1 ≤ h) × (h ≤ LONGEST_CAMERA_SIDE) }
    ensures each { IfOk result (λ t. t.items ≡ tile_areas w h) }
    ensures frame { IfOk result (λ t. IsFrame t.items) }
    ensures some { IfOk result (λ t. 1 ≤ length t.items) }
    ensures few { IfOk result (λ t. length t.items ≤ MOST_TILES) }
{
    Ok(tiles(alloc, w, h)?)
}
