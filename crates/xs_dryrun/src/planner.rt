ghost use Rattle.std.specs.Prelude.{◌≡◌, ◌<◌, ◌≤◌, ◌+◌, ◌-◌, ◌++◌, ℕ, None, Some, List, [], All, Err, IfOk, OnErr, OnOk, length};
ghost use Rattle.std.specs.Option.{option_map};
ghost use Rattle.xs_base.specs.declared.limits.TheConstants.{LONGEST_CAMERA_SIDE, LAST_ROW};
ghost use Rattle.xs_rect.specs.Tiles.{tile_areas};
ghost use Rattle.xs_check.specs.Good.{files_of};
ghost use Rattle.xs_plan.specs.declared.limits.TheConstants.{MOST_ROWS};
ghost use Rattle.xs_demand.specs.Aliases.{aliases_of};
ghost use Rattle.xs_demand.specs.Limits.{first_limit};
ghost use Rattle.xs_demand.specs.Shown.{ShowsRoots};
ghost use Rattle.xs_dryrun.specs.declared.limits.PlanFault.TheVariants.{Limit};
ghost use Rattle.xs_dryrun.specs.Passing.{greatest_of, what_of};
ghost use Rattle.xs_dryrun.specs.Adding.{roots_under};
ghost use Rattle.xs_dryrun.specs.Planning.{planning};

use crate::limits::{PlanFault, What};
use crate::next::{Underway, add_rows, begin};
use crate::whole::{finish, frame_tiles};
use std::alloc::Global;
use std::marker::Model;
use xs_base::Memory;
use xs_check::GoodScene;
use xs_plan::{Builder, Plan};
use xs_rect::Rect;

/// The plan of the rows of scenes, which may be added a range at a time. Contracts see the tiles of the frame, for how
/// many rows and drawings it is, and the roots of the rows so far. After a fault there is no row, and no row can be
/// added: what adds some answers want of memory.
#[derive(Drop)]
pub struct Planner {
    tiles: Vec<Rect>,
    rows: u32,
    drawings: u32,
    way: Underway,
    // a fault left a row half done
    lost: bool,
}

impl Model for Planner {
    ghost use Rattle.xs_dryrun.specs.Planning.{Planning, planning, planning_code, roots_so_far, IsPlanner};

    ghost Value = { Planning };

    ghost coded = { planning_code };

    ghost view = { λ p. planning p.tiles.items p.rows p.drawings (roots_so_far p.lost p.way) };

    ghost invariant = { λ p. IsPlanner p.tiles.items p.rows p.drawings p.lost p.way };
}

impl Planner {
    /// No row yet, of so many on frames of `w` by `h` points and with so many drawings.
    pub fn new(alloc: Global, w: u32, h: u32, rows: u32, drawings: u32) -> Result<Planner, Memory>
        requires wide { (1 ≤ w) × (w ≤ LONGEST_CAMERA_SIDE) }
        requires high { (1 ≤ h) × (h ≤ LONGEST_CAMERA_SIDE) }
        requires some_rows { 1 ≤ rows }
        requires few_rows { rows ≤ MOST_ROWS }
        ensures { IfOk result (λ p. p ≡ planning (tile_areas w h) rows drawings []) }
    {
        let tiles = frame_tiles(alloc, w, h)?;
        let frame = frame_tiles(alloc, w, h)?;
        let way = begin(alloc, frame, rows)?;
        Ok(Planner {
            tiles,
            rows,
            drawings,
            way,
            lost: false,
        })
    }

    /// Adds the rows from `from` to `to` of a scene whose drawings have these names, behind those that are there. A
    /// limit is told exactly where the first row and tile of all rows that pass one pass it.
    pub fn rows(
        &mut self,
        alloc: Global,
        s: &GoodScene,
        names: &[u32],
        from: u32,
        to: u32,
    ) -> Result<(), PlanFault>
        requires names { length names.now ≡ length (files_of s.now.levels) }
        requires below { All (λ name. name < self.old.drawings) names.now }
        requires camera { self.old.tiles ≡ tile_areas s.now.camera.w s.now.camera.h }
        requires range { (1 ≤ from) × (from ≤ to) × (to ≤ LAST_ROW) }
        requires room { length self.old.roots + (to + 1 - from) ≤ self.old.rows }
        ensures added { OnOk result (self.new
            ≡ record self.old { roots = self.old.roots ++ roots_under s.now names.now from (to + 1 - from) }) }
        ensures none { OnOk result (first_limit self.old.tiles
            (self.old.roots ++ roots_under s.now names.now from (to + 1 - from)) ≡ None) }
        ensures limited { (what : What) (limit : ℕ) → result ≡ Err (Limit what limit)
            → (option_map what_of (first_limit self.old.tiles
            (self.old.roots ++ roots_under s.now names.now from (to + 1 - from))) ≡ Some what)
            × (limit ≡ greatest_of what) }
        ensures lost { OnErr result (self.new ≡ record self.old { roots = [] }) }
    {
        if self.lost {
            return Err(PlanFault::Memory);
        }
        let place = self.way.roots.len() as u32;
        let tiles = self.tiles.as_slice();
        let added = add_rows(
            &mut self.way,
            alloc,
            s,
            names,
            from,
            to + 1 - from,
            place,
            tiles,
        );
        if added.is_err() {
            self.lost = true;
            return added;
        }
        Ok(())
    }

    /// How many aliases the rows so far have.
    pub fn aliases(&self) -> u32
        ensures { result ≡ length (aliases_of self.now.tiles self.now.roots) }
    {
        if self.lost {
            0
        } else {
            self.way.builder.aliases()
        }
    }

    /// The plan, once all rows are there.
    pub fn finish(self) -> Result<Plan, Memory>
        requires { length self.roots ≡ self.rows }
        ensures shows { IfOk result (λ p. ShowsRoots self.tiles self.roots p) }
        ensures drawings { IfOk result (λ p. p.drawings ≡ self.drawings) }
    {
        let Planner {
            tiles: _tiles,
            rows: _,
            drawings,
            way,
            lost: _,
        } = self;
        finish(into_builder(way), drawings)
    }
}

/// The builder alone.
fn into_builder(way: Underway) -> Builder
    ensures { result ≡ way.builder }
{
    let Underway {
        builder,
        build: _build,
        rows: _rows,
        roots: _roots,
    } = way;
    builder
}
