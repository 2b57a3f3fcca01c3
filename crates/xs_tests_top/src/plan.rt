//! Small plans: what they answer, and the lines of their aliases.

ghost use Rattle.std.specs.Prelude.{◌≡◌, ◌<◌, pos, negsuc, [], ◌∷◌, OnOk, length};
ghost use Rattle.xs_rect.specs.Area.{area};
ghost use Rattle.xs_plan.specs.Draft.{LacksRoots, with_entry, with_root};
ghost use Rattle.xs_plan.specs.Valid.{IsEntry};

use std::alloc::Global;
use std::process::Abort;
use std::test::Fail;
use xs_base::Memory;
use xs_lines::alias_text;
use xs_palette::Palette;
use xs_pixel::{Op, Pixel, Style};
use xs_plan::laws::aliases_reach_what_their_inputs_reach;
use xs_plan::limits::MOST_BUILT;
use xs_plan::{Builder, Job, Plan};
use xs_rect::Rect;

/// Asserts what is printed of an alias.
fn prints(rt: &impl Abort, alloc: Global, plan: &Plan, k: u32, line: &[u8]) -> Result<(), Memory>
    requires { k < length plan.now.entries }
{
    let text = alias_text(alloc, plan, k)?;
    assert!(rt; text.as_slice() == line, "alias {k}");
    Ok(())
}

/// A plan of one row: a drawing multiplied with itself.
fn squared(alloc: Global, tile: Rect) -> Result<Plan, Memory>
    requires { tile ≡ area (pos 0) (pos 0) 1 1 }
{
    let leaf = Job::Leaf {
        drawing: 0,
        dx: 0,
        dy: 0,
    };
    let tiles = vec![in alloc; tile]?;
    let mut b = Builder::new(alloc, tiles, 1)?;
    let first = b.add(leaf, tile, None, None)?;
    let second = b.add(Job::Pair(Op::Mult), tile, Some(first), Some(first))?;
    aliases_reach_what_their_inputs_reach();
    b.root(second)?;
    b.finish(1)
}

/// A plan of one row: a blur of a drawing, which is read on a wider rectangle than the tile.
fn softened(alloc: Global, wide: Rect, tile: Rect) -> Result<Plan, Memory>
    requires wide { wide ≡ area (negsuc 0) (negsuc 0) 3 3 }
    requires tile { tile ≡ area (pos 0) (pos 0) 1 1 }
{
    let leaf = Job::Leaf {
        drawing: 0,
        dx: 0,
        dy: 0,
    };
    let tiles = vec![in alloc; tile]?;
    let mut b = Builder::new(alloc, tiles, 1)?;
    let first = b.add(leaf, wide, None, None)?;
    let second = b.add(Job::Blur(1), tile, Some(first), None)?;
    aliases_reach_what_their_inputs_reach();
    b.root(second)?;
    b.finish(1)
}

/// Gives the next row a job that reads no alias.
fn show(b: &mut Builder, tile: Rect, job: Job) -> Result<(), Memory>
    requires lacks_roots { LacksRoots b.old }
    requires valid { IsEntry (length b.old.plan.tints) b.old.plan.entries (record { job = job; rect = tile; inputs = [] }) }
    requires room { length b.old.plan.entries < MOST_BUILT }
    requires tile { b.old.plan.tiles ≡ tile ∷ [] }
    requires rooted { b.old.rooted ≡ length b.old.plan.entries }
    ensures { OnOk result (b.new
        ≡ with_root (with_entry b.old (record { job = job; rect = tile; inputs = [] })) (length b.old.plan.entries)) }
{
    aliases_reach_what_their_inputs_reach();
    let k = b.add(job, tile, None, None)?;
    b.root(k)?;
    Ok(())
}

/// A plan of two rows: a drawing that is moved left, and the same under a tint.
fn tinted(alloc: Global, tile: Rect, tint: Palette) -> Result<Plan, Memory>
    requires { tile ≡ area (pos 0) (pos 0) 1 1 }
{
    let moved = Job::Leaf {
        drawing: 0,
        dx: -2,
        dy: 0,
    };
    let tiles = vec![in alloc; tile]?;
    let mut b = Builder::new(alloc, tiles, 2)?;
    let tint = b.tint(tint)?;
    show(&mut b, tile, moved)?;
    let under = Job::Tinted {
        drawing: 0,
        dx: 0,
        dy: 0,
        tint,
    };
    show(&mut b, tile, under)?;
    b.finish(1)
}

/// A plan of two rows that need no drawing: a card, and nothing.
fn bare(alloc: Global, tile: Rect, pixel: Pixel) -> Result<Plan, Memory>
    requires { tile ≡ area (pos 0) (pos 0) 1 1 }
{
    let tiles = vec![in alloc; tile]?;
    let mut b = Builder::new(alloc, tiles, 2)?;
    show(&mut b, tile, Job::Card(pixel))?;
    show(&mut b, tile, Job::Clear)?;
    b.finish(0)
}

#[test]
fn an_input_of_both_ports_is_read_twice(rt: HostRuntime) -> Result<(), Fail> {
    let alloc = rt.alloc();
    let tile = Rect::new(0, 0, 1, 1).ok_or("a tile")?;
    let plan = squared(alloc, tile)?;
    assert_eq!(rt; plan.aliases(), 2);
    assert_eq!(rt; plan.reads(), 3);
    prints(
        &rt,
        alloc,
        &plan,
        0,
        b"0: leaf 0 at 0 0; tile 0 0 1 1; readers 2",
    )?;
    prints(
        &rt,
        alloc,
        &plan,
        1,
        b"1: mult 0 0; tile 0 0 1 1; readers 1",
    )?;
    assert_eq!(rt; plan.sections(), 1);
    assert_eq!(rt; plan.new_drawings(0), [0].as_slice());
    assert_eq!(rt; plan.last_section(0), Some(0));
    Ok(())
}

#[test]
fn a_blur_reads_a_wider_rectangle(rt: HostRuntime) -> Result<(), Fail> {
    let alloc = rt.alloc();
    let wide = Rect::new(-1, -1, 3, 3).ok_or("a wide rectangle")?;
    let tile = Rect::new(0, 0, 1, 1).ok_or("a tile")?;
    let plan = softened(alloc, wide, tile)?;
    assert_eq!(rt; plan.aliases(), 2);
    assert_eq!(rt; plan.reads(), 2);
    prints(
        &rt,
        alloc,
        &plan,
        0,
        b"0: leaf 0 at 0 0; tile -1 -1 3 3; readers 1",
    )?;
    prints(
        &rt,
        alloc,
        &plan,
        1,
        b"1: blur 1 0; tile 0 0 1 1; readers 1",
    )?;
    Ok(())
}

#[test]
fn each_row_shows_an_alias_of_its_own(rt: HostRuntime) -> Result<(), Fail> {
    let alloc = rt.alloc();
    let tile = Rect::new(0, 0, 1, 1).ok_or("a tile")?;
    let black = Style {
        r: 0,
        g: 0,
        b: 0,
        a: 255,
    };
    let plan = tinted(alloc, tile, Palette::from_styles(alloc, &[black])?)?;
    assert_eq!(rt; plan.aliases(), 2);
    prints(
        &rt,
        alloc,
        &plan,
        0,
        b"0: leaf 0 at -2 0; tile 0 0 1 1; readers 1",
    )?;
    prints(
        &rt,
        alloc,
        &plan,
        1,
        b"1: tinted 0 at 0 0 by 0; tile 0 0 1 1; readers 1",
    )?;
    let plan = bare(alloc, tile, Pixel::new(10, 20, 30, 255).ok_or("a pixel")?)?;
    assert_eq!(rt; plan.aliases(), 2);
    prints(
        &rt,
        alloc,
        &plan,
        0,
        b"0: card 10 20 30 255; tile 0 0 1 1; readers 1",
    )?;
    prints(&rt, alloc, &plan, 1, b"1: clear; tile 0 0 1 1; readers 1")?;
    Ok(())
}
