//! A drawing that is shown at the end of one section and in the next, led and gathered by a seat that is alone.

ghost use Rattle.std.specs.Prelude.{◌≡◌, None};
ghost use Rattle.xs_rect.specs.Tiles.{IsCut};

use crate::plans::{held, late};
use std::alloc::Global;
use std::marker::Brand;
use std::process::Abort;
use std::test::Fail;
use xs_bench::{Bench, PlainBench};
use xs_frames::{Frame, Gather, frame_name};
use xs_pixel::Film;
use xs_plain_desk::PlainDesk;
use xs_plan::Plan;
use xs_rawfile::frame_bytes;
use xs_rect::Rect;
use xs_sections::{Order, all_drawn, gather, gather_alone, lead, render_all, rows_of};
use xs_worker::laws::the_first_section_is_begun_at_a_fresh_seat;

/// The file of a clear frame.
const CLEAR: &[u8] = b"XFR1\x01\0\0\0\x01\0\0\0\0\0\0\0";

/// The file of a frame that shows the drawing.
const SHOWN: &[u8] = b"XFR1\x01\0\0\0\x01\0\0\0\x0a\x14\x1e\xff";

/// Asserts what rows 1 to 9 demand: a clear alias that rows 1 to 7 read, and the drawing that rows 8 and 9 read.
fn demands_two(rt: &impl Abort, p: &Plan) {
    assert!(rt;
        p.aliases() == 2 && p.reads() == 9,
        "two aliases and nine reads"
    );
    assert!(rt;
        p.readers(0) == 7 && p.readers(1) == 2,
        "seven readers and two"
    );
    assert!(rt;
        p.rows() == 9 && p.sections() == 2,
        "nine rows in two sections"
    );
}

/// Leads and gathers both sections, and asserts what is computed, what is held, and the frame of the row that was
/// gathered last.
fn renders<K: Film>(
    rt: &impl Abort,
    alloc: Global,
    p: &Plan,
    order: Order,
    last: &[u8],
) -> Result<(), Fail>
    requires untold { K.pictures ≡ None }
    requires tiles { IsCut 1 1 p.now.tiles }
{
    demands_two(rt, p);
    let d = held::<K>(alloc)?;
    let ready = p.rows() == 9 && all_drawn(p, &d);
    assert!(rt; ready, "nine rows, and the drawing is held");
    let mut frame = Frame::<K>::new(alloc, p, 1, 1)?;
    let mut desk = PlainDesk::<K>::new(alloc, p)?;
    let mut bench = PlainBench::new(alloc);
    the_first_section_is_begun_at_a_fresh_seat();
    lead(alloc, p, &mut desk, &mut bench, &d, 0)?;
    assert!(rt;
        desk.held() == 2,
        "both are held before the rows are gathered"
    );
    gather(p, &mut desk, &mut frame, 0, &rows_of(alloc, p, 0, order)?)?;
    assert!(rt;
        desk.held() == 1,
        "the drawing is held after the first section"
    );
    assert!(rt; frame.bytes() == last, "the frame of the row gathered last");
    lead(alloc, p, &mut desk, &mut bench, &d, 1)?;
    gather(p, &mut desk, &mut frame, 1, &rows_of(alloc, p, 1, order)?)?;
    assert!(rt; desk.held() == 0, "nothing is held at the end");
    assert!(rt; frame.bytes() == SHOWN, "the last frame shows the drawing");
    assert!(rt;
        bench.computed() == [0u32, 1].as_slice(),
        "each alias was computed once"
    );
    Ok(())
}

/// Leads and gathers the first section, leads the second and gathers its row into a raster of its own.
fn gathers_alone<K: Film>(rt: &impl Abort, alloc: Global, p: &Plan) -> Result<(), Fail>
    requires untold { K.pictures ≡ None }
    requires tiles { IsCut 1 1 p.now.tiles }
{
    let d = held::<K>(alloc)?;
    let ready = p.rows() == 9 && all_drawn(p, &d);
    assert!(rt; ready, "nine rows, and the drawing is held");
    let mut frame = Frame::<K>::new(alloc, p, 1, 1)?;
    let mut desk = PlainDesk::<K>::new(alloc, p)?;
    let mut bench = PlainBench::new(alloc);
    the_first_section_is_begun_at_a_fresh_seat();
    lead(alloc, p, &mut desk, &mut bench, &d, 0)?;
    gather(
        p,
        &mut desk,
        &mut frame,
        0,
        &rows_of(alloc, p, 0, Order::FirstFirst)?,
    )?;
    lead(alloc, p, &mut desk, &mut bench, &d, 1)?;
    let raster = gather_alone(p, &mut desk, Gather::new(alloc, p, 1, 1, 8)?, 1, 8)?;
    assert!(rt;
        frame_bytes(alloc, &raster)?.as_slice() == SHOWN,
        "the row shows the drawing"
    );
    assert!(rt; desk.held() == 0, "nothing is held at the end");
    Ok(())
}

/// Renders all rows in order.
fn renders_all<K: Film>(rt: &impl Abort, alloc: Global, p: &Plan) -> Result<(), Fail>
    requires untold { K.pictures ≡ None }
    requires tiles { IsCut 1 1 p.now.tiles }
{
    let d = held::<K>(alloc)?;
    let ready = all_drawn(p, &d);
    assert!(rt; ready, "the drawing is held");
    let mut frame = Frame::<K>::new(alloc, p, 1, 1)?;
    let mut desk = PlainDesk::<K>::new(alloc, p)?;
    let mut bench = PlainBench::new(alloc);
    render_all(alloc, p, &mut desk, &mut bench, &d, &mut frame)?;
    assert!(rt; desk.held() == 0, "nothing is held at the end");
    assert!(rt; frame.bytes() == SHOWN, "the last frame shows the drawing");
    assert!(rt;
        bench.computed() == [0u32, 1].as_slice(),
        "each alias was computed once"
    );
    Ok(())
}

#[test]
fn a_plan_is_rendered_row_by_row(rt: HostRuntime) -> Result<(), Fail> {
    let alloc = rt.alloc();
    let p = late(alloc, Rect::new(0, 0, 1, 1).ok_or("a tile")?)?;
    renders_all::<Brand>(&rt, alloc, &p)
}

#[test]
fn a_tile_is_held_between_two_sections_that_read_it(rt: HostRuntime) -> Result<(), Fail> {
    let alloc = rt.alloc();
    let p = late(alloc, Rect::new(0, 0, 1, 1).ok_or("a tile")?)?;
    renders::<Brand>(&rt, alloc, &p, Order::FirstFirst, SHOWN)
}

#[test]
fn rows_are_gathered_from_the_last_one_on(rt: HostRuntime) -> Result<(), Fail> {
    let alloc = rt.alloc();
    let p = late(alloc, Rect::new(0, 0, 1, 1).ok_or("a tile")?)?;
    renders::<Brand>(&rt, alloc, &p, Order::LastFirst, CLEAR)
}

#[test]
fn a_row_is_gathered_into_a_raster(rt: HostRuntime) -> Result<(), Fail> {
    let alloc = rt.alloc();
    let p = late(alloc, Rect::new(0, 0, 1, 1).ok_or("a tile")?)?;
    gathers_alone::<Brand>(&rt, alloc, &p)
}

#[test]
fn names_a_frame_by_its_row_in_four_digits(rt: HostRuntime) -> Result<(), Fail> {
    assert_eq!(rt; frame_name(rt.alloc(), "f", 1)?.as_str(), "f.0001.xfr");
    assert_eq!(rt;
        frame_name(rt.alloc(), "a b", 9876)?.as_str(),
        "a b.9876.xfr"
    );
    Ok(())
}
