//! Gathering frames of 1920 by 1080, beside copying as many rows to the same places.

ghost use Rattle.std.specs.Prelude.{◌≡◌, ◌<◌, ◌≤◌, None, IfOk};
ghost use Rattle.xs_base.specs.declared.limits.TheConstants.{LONGEST_CAMERA_SIDE, SECTION_ROWS};
ghost use Rattle.xs_plan.specs.Record.{rows_in};
ghost use Rattle.xs_rect.specs.Tiles.{IsCut};
ghost use Rattle.xs_rawfile.specs.declared.drawing.RawKind.TheVariants as kind;
ghost use Rattle.xs_sections.specs.Drawn.{AreAllDrawn};

use crate::clock::nanoseconds_since;
use crate::copies::Copies;
use crate::cuts::{cut, sides};
use crate::fault::Fault;
use crate::noise::{Random, pixels};
use crate::scenes::{good_scene, plan_of};
use crate::works::Work;
use std::alloc::Global;
use std::io;
use std::marker::Brand;
use std::rt::Clock;
use std::time::Instant;
use xs_base::List;
use xs_base::limits::SECTION_ROWS;
use xs_bench::LaneBench;
use xs_check::GoodScene;
use xs_frames::Frame;
use xs_pixel::Film;
use xs_plain_desk::PlainDesk;
use xs_plan::Plan;
use xs_rawfile::{Drawing, Drawings, RawKind};
use xs_sections::{Order, all_drawn, gather, lead, rows_of};
use xs_worker::laws::the_first_section_is_begun_at_a_fresh_seat;

/// The text of a scene of three sections of eight rows: a drawing that moves by a pixel in each row of the first, and then
/// stays where it is, so that no tile leaves after the second.
fn scene() -> &'static str {
    r#"{
        "format": 2,
        "camera": {"w": 1920, "h": 1080},
        "palettes": [],
        "levels": [{"kind": "colour", "drawings": ["d"]}],
        "sheets": [{
            "pegs": [{"keys": [{"row": 1, "x": 0, "y": 0, "line": true}, {"row": 8, "x": 7, "y": 0}]}],
            "columns": [{"peg": 0, "cells": [{"from": 1, "to": 24, "level": 0, "drawing": 0}]}]
        }]
    }"#
}

const ROWS: u32 = 24;

/// How often all is timed; the least time counts.
const TIMES: u32 = 10;

/// The least nanoseconds of the frames of a section.
#[derive(Clone, Copy)]
struct Times {
    /// Each tile is another than in the row before.
    other: u64,
    /// Each tile is that of the row before.
    same: u64,
    /// As many rows are copied to the same places.
    copied: u64,
}

/// A drawing that covers the frame wherever it moves.
fn drawing(alloc: Global) -> Result<Drawing, Fault>
    ensures { IfOk result (λ d. d.kind ≡ kind.Colour) }
{
    let bytes = pixels(alloc, &mut Random::new(3), 2048 * 1152)?;
    Drawing::new(-64, -32, 2048, 1152, RawKind::Colour, List::of(bytes)).ok_or(Fault::Input)
}

/// The drawing, held.
fn held<K: Film>(alloc: Global) -> Result<Drawings<K>, Fault>
    requires { K.pictures ≡ None }
{
    let mut drawings = Drawings::new(alloc, 1, List::of(Vec::new(alloc)))?;
    drawings.set(0, drawing(alloc)?, None);
    Ok(drawings)
}

/// The nanoseconds of gathering the first two sections of a plan, at a new desk into a new frame of `w` by `h` points.
fn gather_both<K: Film, R: Clock>(
    rt: &R,
    alloc: Global,
    p: &Plan,
    d: &Drawings<K>,
    w: u32,
    h: u32,
) -> Result<(u64, u64), Fault>
    requires wide { (1 ≤ w) × (w ≤ LONGEST_CAMERA_SIDE) }
    requires high { (1 ≤ h) × (h ≤ LONGEST_CAMERA_SIDE) }
    requires tiles { IsCut w h p.now.tiles }
    requires rows { SECTION_ROWS < rows_in p.now }
    requires drawn { AreAllDrawn p.now d.now }
{
    let mut frame = Frame::<K>::new(alloc, p, w, h)?;
    let mut desk = PlainDesk::<K>::new(alloc, p)?;
    let mut bench = LaneBench::new(alloc);
    let (first, second) = (
        rows_of(alloc, p, 0, Order::FirstFirst)?,
        rows_of(alloc, p, 1, Order::FirstFirst)?,
    );
    the_first_section_is_begun_at_a_fresh_seat();
    lead(alloc, p, &mut desk, &mut bench, d, 0)?;
    let start = Instant::now(rt)?;
    gather(p, &mut desk, &mut frame, 0, &first)?;
    let other = nanoseconds_since(rt, start)?;
    lead(alloc, p, &mut desk, &mut bench, d, 1)?;
    let start = Instant::now(rt)?;
    gather(p, &mut desk, &mut frame, 1, &second)?;
    Ok((other, nanoseconds_since(rt, start)?))
}

/// The nanoseconds of copying the rows of a section's frames.
fn copy_all<R: Clock>(rt: &R, copies: &mut Copies) -> Result<u64, Fault> {
    let start = Instant::now(rt)?;
    copies.run()?;
    Ok(nanoseconds_since(rt, start)?)
}

/// The least times of a section of a plan.
fn least<K: Film, R: Clock>(
    rt: &R,
    alloc: Global,
    p: &Plan,
    d: &Drawings<K>,
    w: u32,
    h: u32,
) -> Result<Times, Fault>
    requires wide { (1 ≤ w) × (w ≤ LONGEST_CAMERA_SIDE) }
    requires high { (1 ≤ h) × (h ≤ LONGEST_CAMERA_SIDE) }
    requires tiles { IsCut w h p.now.tiles }
    requires rows { SECTION_ROWS < rows_in p.now }
    requires drawn { AreAllDrawn p.now d.now }
{
    let mut copies = Copies::of(alloc, p, w, h)?;
    let (mut other, mut same, mut copied) = (u64::MAX, u64::MAX, u64::MAX);
    for _time in 0..TIMES {
        let (first, second) = gather_both(rt, alloc, p, d, w, h)?;
        other = other.min(first);
        same = same.min(second);
        copied = copied.min(copy_all(rt, &mut copies)?);
    }
    Ok(Times {
        other,
        same,
        copied,
    })
}

/// The least times of a section of the scene.
fn time_scene<K: Film, R: Clock>(rt: &R, alloc: Global, good: &GoodScene) -> Result<Times, Fault>
    requires { K.pictures ≡ None }
{
    let (w, h) = sides(good);
    let p = plan_of(alloc, good, ROWS)?;
    cut(alloc, good, &p, w, h)?;
    let d = held::<K>(alloc)?;
    if p.rows() <= SECTION_ROWS {
        return Err(Fault::Input);
    }
    if !all_drawn(&p, &d) {
        return Err(Fault::Input);
    }
    least(rt, alloc, &p, &d, w, h)
}

/// Prints three lines: the nanoseconds of gathering a frame whose tiles all differ from those of the row before, and one
/// whose tiles are all the same; and those of copying as many rows to the same places.
pub(crate) fn time<R: Clock + Print>(rt: &R, alloc: Global) -> io::Result<()> {
    let good = good_scene(alloc, scene())?;
    let times = time_scene::<Brand, R>(rt, alloc, &good)?;
    let rows = u64::from(SECTION_ROWS);
    println!(rt; "gather other {}", times.other / rows)?;
    println!(rt; "gather same {}", times.same / rows)?;
    println!(rt; "gather copied {}", times.copied / rows)
}
