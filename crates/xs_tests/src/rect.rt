//! Rectangles at the edges of their range, and frames cut into tiles.

ghost use Rattle.std.specs.Prelude.{◌≤◌};

use std::alloc::{AllocError, Global};
use std::process::Abort;
use std::test::Fail;
use xs_rect::{Rect, tiles};

type Sides = (i32, i32, u32, u32);

fn sides(r: Rect) -> Sides {
    (r.x(), r.y(), r.w(), r.h())
}

fn made(of: Sides) -> Option<Rect> {
    Rect::new(of.0, of.1, of.2, of.3)
}

#[test]
fn refuses_what_is_out_of_range(rt: HostRuntime) {
    let edge = 134_217_728;
    for (of, fits) in [
        ((edge, -edge, 1, 8192), true),
        ((-edge, edge, 8192, 1), true),
        ((edge + 1, 0, 1, 1), false),
        ((0, -edge - 1, 1, 1), false),
        ((0, 0, 0, 1), false),
        ((0, 0, 1, 8193), false),
    ] {
        assert_eq!(rt; made(of).map(sides), if fits { Some(of) } else { None });
    }
}

#[test]
fn clips_and_grows_at_the_edges(rt: HostRuntime) -> Result<(), Fail> {
    let edge = 134_217_728;
    let far = made((edge, edge, 8192, 8190)).ok_or("in range")?;
    let near = made((edge - 1, edge - 1, 2, 3)).ok_or("in range")?;
    let beside = made((edge - 1, edge, 1, 1)).ok_or("in range")?;
    assert_eq!(rt; far.clip(&near).map(sides), Some((edge, edge, 1, 2)));
    assert_eq!(rt; far.clip(&beside).map(sides), None);
    assert_eq!(rt; beside.grow(1).map(sides), Some((edge - 2, edge - 1, 3, 3)));
    assert_eq!(rt; far.grow(1).map(sides), None);
    assert_eq!(rt; near.grow(4_294_967_295).map(sides), None);
    assert!(rt; near.contains(edge, edge + 1));
    assert!(rt; !near.contains(edge + 1, edge));
    Ok(())
}

/// Asserts how many tiles a frame has, and which the last is.
fn ends_with(
    rt: &impl Abort,
    alloc: Global,
    w: u32,
    h: u32,
    count: usize,
    last: Sides,
) -> Result<(), AllocError>
    requires wide { (1 ≤ w) × (w ≤ 4096) }
    requires high { (1 ≤ h) × (h ≤ 4096) }
{
    let all = tiles(alloc, w, h)?;
    assert_eq!(rt; all.len(), count);
    assert_eq!(rt; all.last().map(|r| sides(*r)), Some(last));
    Ok(())
}

#[test]
fn cuts_frames_into_tiles(rt: HostRuntime) -> Result<(), Fail> {
    let narrow = tiles(rt.alloc(), 65, 1)?;
    assert_eq!(rt; narrow.first().map(|r| sides(*r)), Some((0, 0, 64, 1)));
    ends_with(&rt, rt.alloc(), 65, 1, 2, (64, 0, 1, 1))?;
    ends_with(&rt, rt.alloc(), 64, 64, 1, (0, 0, 64, 64))?;
    ends_with(&rt, rt.alloc(), 4096, 4096, 4096, (4032, 4032, 64, 64))?;
    Ok(())
}
