//! Small plans, and one of many aliases.

ghost use Rattle.std.specs.Prelude.{◌≡◌, ◌<◌, [], ◌∷◌, IfOk, OnOk, pos, length};
ghost use Rattle.xs_rect.specs.Area.{area};
ghost use Rattle.xs_plan.specs.Draft.{LacksRoots, with_entry, with_root};
ghost use Rattle.xs_plan.specs.Valid.{IsEntry};
ghost use Rattle.xs_plan.specs.declared.job.Job.TheVariants.{Clear};

use std::alloc::Global;
use xs_base::Memory;
use xs_pixel::Op;
use xs_plan::laws::aliases_reach_what_their_inputs_reach;
use xs_plan::limits::MOST_BUILT;
use xs_plan::{Builder, Job, Plan};
use xs_rect::Rect;

/// How many aliases the wide plan has.
const MANY: u32 = 1100;

/// A plan of one row: a drawing multiplied with itself.
pub(crate) fn squared(alloc: Global, tile: Rect) -> Result<Plan, Memory>
    requires { tile ≡ area (pos 0) (pos 0) 1 1 }
{
    let leaf = Job::Leaf {
        drawing: 0,
        dx: 0,
        dy: 0,
    };
    let tiles = vec![in alloc; tile]?;
    let mut b = Builder::new(alloc, tiles, 1)?;
    let first = b.add(leaf, tile, None, None)?;
    let second = b.add(Job::Pair(Op::Mult), tile, Some(first), Some(first))?;
    aliases_reach_what_their_inputs_reach();
    b.root(second)?;
    b.finish(1)
}

/// Gives the next row an alias of its own, which shows nothing.
fn show(b: &mut Builder, tile: Rect) -> Result<(), Memory>
    requires lacks_roots { LacksRoots b.old }
    requires valid { IsEntry (length b.old.plan.tints) b.old.plan.entries (record { job = Clear; rect = tile; inputs = [] }) }
    requires room { length b.old.plan.entries < MOST_BUILT }
    requires tile { b.old.plan.tiles ≡ tile ∷ [] }
    requires rooted { b.old.rooted ≡ length b.old.plan.entries }
    ensures { OnOk result (b.new
        ≡ with_root (with_entry b.old (record { job = Clear; rect = tile; inputs = [] })) (length b.old.plan.entries)) }
{
    aliases_reach_what_their_inputs_reach();
    let k = b.add(Job::Clear, tile, None, None)?;
    b.root(k)?;
    Ok(())
}

/// A plan of many rows, each with an alias of its own.
pub(crate) fn many(alloc: Global, tile: Rect) -> Result<Plan, Memory>
    requires { tile ≡ area (pos 0) (pos 0) 1 1 }
{
    let tiles = vec![in alloc; tile]?;
    let mut b = Builder::new(alloc, tiles, MANY)?;
    for _row in 0..MANY {
        show(&mut b, tile)?;
    }
    b.finish(0)
}
