//! The whole life of aliases at a plain desk: each is claimed and finished with a blank tile, and then read and
//! retired.

ghost use Rattle.std.specs.Prelude.{◌≡◌, ◌≤◌, None};
ghost use Rattle.xs_plan.specs.declared.limits.TheConstants.{MOST_ROWS};

use crate::clock::{nanoseconds_since, share};
use crate::fault::Fault;
use crate::scenes::{good_scene, plan_of};
use std::alloc::Global;
use std::io;
use std::marker::Brand;
use std::rt::Clock;
use std::time::Instant;
use xs_check::GoodScene;
use xs_life::{make_first, serve_first};
use xs_pixel::Film;
use xs_plain_desk::PlainDesk;
use xs_plan::Plan;

/// The text of a scene of 2000 tiles, on each of which a drawing moves by a pixel in each row: so many aliases in each
/// row.
fn moving() -> &'static str {
    r#"{
        "format": 2,
        "camera": {"w": 2560, "h": 3200},
        "palettes": [],
        "levels": [{"kind": "colour", "drawings": ["d"]}],
        "sheets": [{
            "pegs": [{"keys": [{"row": 1, "x": 0, "y": 0, "line": true}, {"row": 2000, "x": 1999, "y": 0}]}],
            "columns": [{"peg": 0, "cells": [{"from": 1, "to": 2000, "level": 0, "drawing": 0}]}]
        }]
    }"#
}

/// The rows with few aliases, and how often their life is timed; the least time counts.
const FEW_ROWS: u32 = 5;

const FEW_TIMES: u32 = 200;

/// The rows with many aliases, and how often their life is timed.
const MANY_ROWS: u32 = 2000;

const MANY_TIMES: u32 = 3;

/// The nanoseconds of the life of all aliases of a plan.
fn live<K: Film, R: Clock>(rt: &R, alloc: Global, p: &Plan) -> Result<u64, Fault>
    requires { K.pictures ≡ None }
{
    let mut desk = PlainDesk::<K>::new(alloc, p)?;
    let start = Instant::now(rt)?;
    if !make_first(alloc, &mut desk, p, p.aliases())? {
        return Err(Fault::Input);
    }
    if serve_first(&mut desk, p, p.aliases())? != p.reads() {
        return Err(Fault::Input);
    }
    Ok(nanoseconds_since(rt, start)?)
}

/// Prints how many aliases the rows have, and the least time of one.
fn time_rows<R: Clock + Print>(
    rt: &R,
    alloc: Global,
    good: &GoodScene,
    rows: u32,
    times: u32,
) -> Result<(), Fault>
    requires { (1 ≤ rows) × (rows ≤ MOST_ROWS) }
{
    let p = plan_of(alloc, good, rows)?;
    let mut least = u64::MAX;
    for _time in 0..times {
        least = least.min(live::<Brand, R>(rt, alloc, &p)?);
    }
    println!(rt; "desk {} {}", p.aliases(), share(least, p.aliases()))?;
    Ok(())
}

/// Prints a line for few aliases and one for many: how many they are, and the time of the life of one in thousandths of
/// a nanosecond.
pub(crate) fn time<R: Clock + Print>(rt: &R, alloc: Global) -> io::Result<()> {
    let good = good_scene(alloc, moving())?;
    time_rows(rt, alloc, &good, FEW_ROWS, FEW_TIMES)?;
    time_rows(rt, alloc, &good, MANY_ROWS, MANY_TIMES)?;
    Ok(())
}
