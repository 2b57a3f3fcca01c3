//! The roots of rows.

ghost use Rattle.std.specs.Prelude.{◌≡◌, ◌<◌, ◌≤◌, ◌+◌, ◌^◌, max, IfOk, OnOk, IsErrOf, length};
ghost use Rattle.xs_base.specs.declared.limits.TheConstants.{FARTHEST_PLACE};
ghost use Rattle.xs_check.specs.Good.{files_of};
ghost use Rattle.xs_pixel.specs.Points.{point};
ghost use Rattle.xs_meaning.specs.Bounds.{IsWithin};
ghost use Rattle.xs_meaning.specs.RowValues.{camera_at};
ghost use Rattle.xs_meaning.specs.Expressions.{root_of, reach_of};
ghost use Rattle.xs_demand.specs.Blocks.{enter, Enters};
ghost use Rattle.xs_demand.specs.Renamed.{renamed};
ghost use Rattle.xs_build.specs.States.{named};

use crate::build::Build;
use crate::number::number_any;
use crate::scope::Scope;
use crate::state::State;
use crate::stop::Stop;
use std::alloc::Global;
use xs_base::Memory;
use xs_check::GoodScene;
use xs_extent::laws::extents_know_neither_offset_nor_filters;
use xs_extent::{Extents, extent};
use xs_step::laws::ways_end;
use xs_step::{LONGEST_WAY, row as spot_of_row};

/// The sheet whose rows are rendered.
const FIRST: u32 = 0;

/// How far the root of a row looks beyond a tile through its blurs, in pixels.
pub fn reach(alloc: Global, s: &GoodScene, row: u32) -> Result<u32, Memory>
    ensures { IfOk result (λ n. n ≡ reach_of (root_of s.now row)) }
{
    // a checked scene has a first sheet, each sheet has few nodes, and all its ways end
    s.scene();
    ways_end();
    extents_know_neither_offset_nor_filters();
    let mut known = Extents::new(alloc);
    let extent = extent(alloc, s, LONGEST_WAY, spot_of_row(FIRST, row), &mut known)?;
    Ok(extent.unwrap_or(0))
}

/// The place of the camera at a row, in pixels to the right and up.
fn camera_place(s: &GoodScene, row: u32) -> (i32, i32)
    ensures value { point result.0 result.1 ≡ camera_at s.now row }
    ensures near { IsWithin FARTHEST_PLACE (point result.0 result.1) }
{
    let camera = &s.scene().camera;
    s.place(FIRST, camera.peg, row)
}

impl Build {
    /// Enters the root of a row of a scene, moved against the camera, with each drawing under its name, and
    /// answers its number. Full if more than `most` would be entered then; the build may have entered a part.
    pub fn root(
        &mut self,
        alloc: Global,
        s: &GoodScene,
        names: &[u32],
        row: u32,
        most: u32,
    ) -> Result<u32, Stop>
        requires names { length names.now ≡ length (files_of s.now.levels) }
        requires most { most < 2 ^ 30 }
        ensures entered { IfOk result (λ n. Enters self.old.entered self.new.entered (renamed (named names.now) (root_of s.now row)) 0 n) }
        ensures few { OnOk result (length self.new.entered ≤ max (length self.old.entered) (most + 1)) }
        ensures full { IsErrOf result Stop.Full → most < length (enter (renamed (named names.now) (root_of s.now row)) 0 self.old.entered) }
    {
        // a checked scene has a first sheet, each sheet has few nodes, and all its ways end
        s.scene();
        ways_end();
        let (x, y) = camera_place(s, row);
        let at = Scope {
            alloc,
            scene: s,
            names,
            most,
        };
        let state = State {
            spot: spot_of_row(FIRST, row),
            x: -x,
            y: -y,
            dropped: 0,
            growth: 0,
        };
        self.begin(alloc)?;
        number_any(&at, LONGEST_WAY, state, self)
    }
}
