//! Small plans of a drawing of one pixel, before a camera of one pixel.

ghost use Rattle.std.specs.Prelude.{◌≡◌, ◌<◌, None, [], ◌∷◌, IfOk, OnOk, pos, length};
ghost use Rattle.xs_rect.specs.Area.{area};
ghost use Rattle.xs_rect.specs.Tiles.{IsCut};
ghost use Rattle.xs_plan.specs.Record.{entry_at};
ghost use Rattle.xs_plan.specs.Draft.{LacksRoots, with_entry, with_root};
ghost use Rattle.xs_plan.specs.Valid.{IsEntry};

use std::alloc::Global;
use std::test::Fail;
use xs_base::{List, Memory};
use xs_pixel::Film;
use xs_plan::laws::aliases_reach_what_their_inputs_reach;
use xs_plan::limits::MOST_BUILT;
use xs_plan::{Builder, Job, Plan};
use xs_rawfile::{Drawing, Drawings, RawKind};
use xs_rect::{Rect, tiles};

/// Shows the drawing.
const LEAF: Job = Job::Leaf {
    drawing: 0,
    dx: 0,
    dy: 0,
};

/// Gives the next row a job that reads no alias.
fn show(b: &mut Builder, tile: Rect, job: Job) -> Result<(), Memory>
    requires lacks_roots { LacksRoots b.old }
    requires valid { IsEntry (length b.old.plan.tints) b.old.plan.entries (record { job = job; rect = tile; inputs = [] }) }
    requires room { length b.old.plan.entries < MOST_BUILT }
    requires tile { b.old.plan.tiles ≡ tile ∷ [] }
    requires rooted { b.old.rooted ≡ length b.old.plan.entries }
    ensures { OnOk result (b.new
        ≡ with_root (with_entry b.old (record { job = job; rect = tile; inputs = [] })) (length b.old.plan.entries)) }
{
    aliases_reach_what_their_inputs_reach();
    let k = b.add(job, tile, None, None)?;
    b.root(k)?;
    Ok(())
}

/// Gives the next row an alias that an earlier row has.
fn show_again(b: &mut Builder, tile: Rect, k: u32) -> Result<(), Memory>
    requires lacks_roots { LacksRoots b.old }
    requires there { k < length b.old.plan.entries }
    requires on { (entry_at b.old.plan.entries k).rect ≡ tile }
    requires tile { b.old.plan.tiles ≡ tile ∷ [] }
    requires rooted { b.old.rooted ≡ length b.old.plan.entries }
    ensures { OnOk result (b.new ≡ with_root b.old k) }
{
    b.root(k)?;
    Ok(())
}

/// The tile of a frame of one pixel.
#[tactic(auto, unfolding(xs_rect::specs::Tiles::tile_area))]
fn one_tile(alloc: Global, tile: Rect) -> Result<Vec<Rect>, Memory>
    requires { tile ≡ area (pos 0) (pos 0) 1 1 }
    ensures items { IfOk result (λ v. v.items ≡ tile ∷ []) }
    ensures cut { IfOk result (λ v. IsCut 1 1 v.items) }
{
    Ok(tiles(alloc, 1, 1)?)
}

/// A plan of nine rows: nothing on the first seven, and the drawing on the last two.
pub(crate) fn late(alloc: Global, tile: Rect) -> Result<Plan, Memory>
    requires { tile ≡ area (pos 0) (pos 0) 1 1 }
    ensures { IfOk result (λ p. IsCut 1 1 p.tiles) }
{
    let mut b = Builder::new(alloc, one_tile(alloc, tile)?, 9)?;
    show(&mut b, tile, Job::Clear)?;
    show_again(&mut b, tile, 0)?;
    show_again(&mut b, tile, 0)?;
    show_again(&mut b, tile, 0)?;
    show_again(&mut b, tile, 0)?;
    show_again(&mut b, tile, 0)?;
    show_again(&mut b, tile, 0)?;
    show(&mut b, tile, LEAF)?;
    show_again(&mut b, tile, 1)?;
    b.finish(1)
}

/// The drawing, held.
pub(crate) fn held<K: Film>(alloc: Global) -> Result<Drawings<K>, Fail>
    requires { K.pictures ≡ None }
{
    let mut drawings = Drawings::new(alloc, 1, List::of(Vec::new(alloc)))?;
    let bytes = [10u8, 20, 30, 255].to_vec(alloc)?;
    let drawing = Drawing::new(0, 0, 1, 1, RawKind::Colour, List::of(bytes));
    drawings.set(0, drawing.ok_or("a drawing")?, None);
    Ok(drawings)
}
