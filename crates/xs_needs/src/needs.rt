ghost use Rattle.std.specs.Prelude.{◌≡◌, ◌<◌, All, IfOk, length};
ghost use Rattle.xs_check.specs.Good.{files_of};
ghost use Rattle.xs_meaning.specs.Expressions.{drawings_of, root_of};
ghost use Rattle.xs_base.specs.Once.{each_once};

use crate::found::{Found, Gathered, Known};
use crate::gather::gather;
use crate::laws::spots_tell_what_is_shown;
use std::alloc::Global;
use xs_base::Memory;
use xs_check::GoodScene;
use xs_step::laws::ways_end;
use xs_step::{At, LONGEST_WAY, Spot};

/// The drawings of a row's expression, each once, in the order in which the walk meets them.
pub fn row_drawings(alloc: Global, s: &GoodScene, row: u32) -> Result<Vec<u32>, Memory>
    ensures value { IfOk result (λ v. v.items ≡ each_once (drawings_of (root_of s.now row))) }
    ensures there { IfOk result (λ v. All (λ d. d < length (files_of s.now.levels)) v.items) }
{
    // a checked scene has a first sheet, each sheet has few nodes, and all its ways end
    s.scene();
    spots_tell_what_is_shown();
    ways_end();
    let mut found = Found {
        known: Known::new(alloc),
        gathered: Gathered::new(alloc),
    };
    let spot = Spot {
        sheet: 0,
        at: At::Row,
        row,
    };
    gather(alloc, s, LONGEST_WAY, spot, &mut found)?;
    found.gathered.into_drawings(alloc)
}
