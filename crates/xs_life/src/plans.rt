//! A small plan before a camera of one pixel.

ghost use Rattle.std.specs.Prelude.{◌≡◌, pos};
ghost use Rattle.xs_rect.specs.Area.{area};

use std::alloc::Global;
use xs_base::Memory;
use xs_pixel::Op;
use xs_plan::laws::aliases_reach_what_their_inputs_reach;
use xs_plan::{Builder, Job, Plan};
use xs_rect::Rect;

/// A plan of one row: a drawing multiplied with itself.
pub fn squared(alloc: Global, tile: Rect) -> Result<Plan, Memory>
    requires { tile ≡ area (pos 0) (pos 0) 1 1 }
{
    let leaf = Job::Leaf {
        drawing: 0,
        dx: 0,
        dy: 0,
    };
    let tiles = vec![in alloc; tile]?;
    let mut b = Builder::new(alloc, tiles, 1)?;
    let first = b.add(leaf, tile, None, None)?;
    let second = b.add(Job::Pair(Op::Mult), tile, Some(first), Some(first))?;
    aliases_reach_what_their_inputs_reach();
    b.root(second)?;
    b.finish(1)
}
