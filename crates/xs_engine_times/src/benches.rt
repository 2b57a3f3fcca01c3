//! Each job of the bench of lanes on a tile of 64 by 64, beside the bare work that it asks for on the same bytes.

ghost use Rattle.std.specs.Prelude.{◌≡◌, ◌<◌, IfOk, length};
ghost use Rattle.xs_rawfile.specs.declared.drawing.RawKind.TheVariants as kind;

use crate::fault::Fault;
use crate::noise::{PIXELS, Random, palette, pixels, words};
use crate::scenes::{good_scene, plan_of};
use crate::works::{Work, least, least_of_two};
use crate::yardsticks::{BareBlur, FilledRow, PairRow, PastedRows, WordRow, is_read};
use std::alloc::Global;
use std::io;
use std::marker::Brand;
use std::rt::Clock;
use xs_base::List;
use xs_bench::LaneBench;
use xs_palette::Palette;
use xs_pixel::{Op, Pixel};
use xs_plan::{Job, Plan};
use xs_raster::{Raster, Tile};
use xs_rawfile::{Drawing, Drawings, RawKind};
use xs_tiles::make_tile;

/// The text of a scene of one row, up to what the row shows: columns of two colour drawings and of a wide one, of CM32
/// drawings of noise and of runs, and of a colour drawing far away; and nodes.
fn head() -> &'static str {
    r#"{
        "format": 2,
        "camera": {"w": 64, "h": 64},
        "palettes": [[[0, 0, 0, 0]]],
        "levels": [
            {"kind": "colour", "drawings": ["a", "b", "wide"]},
            {"kind": "cm32", "palette": 0, "drawings": ["noise", "runs"]}
        ],
        "sheets": [{
            "pegs": [{"keys": [{"row": 1, "x": 4096, "y": 0}]}],
            "columns": [
                {"cells": [{"from": 1, "to": 1, "level": 0, "drawing": 0}]},
                {"cells": [{"from": 1, "to": 1, "level": 0, "drawing": 1}]},
                {"cells": [{"from": 1, "to": 1, "level": 0, "drawing": 2}]},
                {"cells": [{"from": 1, "to": 1, "level": 1, "drawing": 0}]},
                {"cells": [{"from": 1, "to": 1, "level": 1, "drawing": 1}]},
                {"peg": 0, "cells": [{"from": 1, "to": 1, "level": 0, "drawing": 0}]}
            ],
            "nodes": [
                {"op": "over", "first": {"column": 0}, "second": {"column": 1}},
                {"op": "add", "first": {"column": 0}, "second": {"column": 1}},
                {"op": "in", "first": {"column": 5}, "second": {"column": 0}},
                {"op": "card", "rgba": [9, 8, 7, 255]},
                {"op": "blur", "input": {"column": 2}, "radius": 1},
                {"op": "blur", "input": {"column": 2}, "radius": 16}
            ],
            "out": ["#
}

/// A job that is timed: its name, and what the row shows.
#[derive(Clone, Copy)]
struct Case {
    name: &'static str,
    shown: &'static str,
}

const CASES: [Case; 10] = [
    Case {
        name: "over",
        shown: r#"{"node":0}"#,
    },
    Case {
        name: "add",
        shown: r#"{"node":1}"#,
    },
    Case {
        name: "cm32-noise",
        shown: r#"{"column":3}"#,
    },
    Case {
        name: "cm32-runs",
        shown: r#"{"column":4}"#,
    },
    Case {
        name: "colour",
        shown: r#"{"column":0}"#,
    },
    Case {
        name: "far-away",
        shown: r#"{"column":5}"#,
    },
    Case {
        name: "in-clear",
        shown: r#"{"node":2}"#,
    },
    Case {
        name: "card",
        shown: r#"{"node":3}"#,
    },
    Case {
        name: "blur-1",
        shown: r#"{"node":4}"#,
    },
    Case {
        name: "blur-16",
        shown: r#"{"node":5}"#,
    },
];

/// The cases.
fn cases() -> [Case; 10] {
    CASES
}

/// A CM32 drawing of a tile's words, of which one after another is the same so many times.
fn word_drawing(alloc: Global, random: &mut Random, times: u32) -> Result<Drawing, Fault>
    ensures { IfOk result (λ d. d.kind ≡ kind.Cm32) }
{
    let bytes = words(alloc, random, PIXELS, times)?;
    Drawing::new(0, 0, 64, 64, RawKind::Cm32, List::of(bytes)).ok_or(Fault::Input)
}

/// A colour drawing of a tile's pixels.
fn colour_drawing(alloc: Global, random: &mut Random) -> Result<Drawing, Fault>
    ensures { IfOk result (λ d. d.kind ≡ kind.Colour) }
{
    let bytes = pixels(alloc, random, PIXELS)?;
    Drawing::new(0, 0, 64, 64, RawKind::Colour, List::of(bytes)).ok_or(Fault::Input)
}

/// A colour drawing of 96 by 96 pixels, as a blur of radius 16 reads them for a tile.
fn wide_drawing(alloc: Global, random: &mut Random) -> Result<Drawing, Fault>
    ensures { IfOk result (λ d. d.kind ≡ kind.Colour) }
{
    let bytes = pixels(alloc, random, 96 * 96)?;
    Drawing::new(-16, -16, 96, 96, RawKind::Colour, List::of(bytes)).ok_or(Fault::Input)
}

/// The palette under which the CM32 drawings are seen.
fn palettes(alloc: Global, random: &mut Random) -> Result<List<Palette>, Fault>
    ensures { IfOk result (λ list. length list ≡ 1) }
{
    let noise = palette(alloc, random)?;
    Ok(List::of(vec![in alloc; noise]?))
}

/// The drawings of the scene, held.
fn held(alloc: Global) -> Result<Drawings<Brand>, Fault> {
    let mut random = Random::new(7);
    let palettes = palettes(alloc, &mut random)?;
    let mut drawings = Drawings::<Brand>::new(alloc, 5, palettes)?;
    drawings.set(0, colour_drawing(alloc, &mut random)?, None);
    drawings.set(1, colour_drawing(alloc, &mut random)?, None);
    drawings.set(2, wide_drawing(alloc, &mut random)?, None);
    drawings.set(3, word_drawing(alloc, &mut random, 1)?, Some(0));
    drawings.set(4, word_drawing(alloc, &mut random, 61)?, Some(0));
    Ok(drawings)
}

/// The tile of an alias by a bench, where those of its inputs stand in the order of the aliases.
fn made(
    alloc: Global,
    bench: &mut LaneBench,
    p: &Plan,
    k: u32,
    tiles: &Vec<Tile>,
    d: &Drawings<Brand>,
) -> Result<Tile, Fault>
    requires { k < length p.now.entries }
{
    match make_tile(alloc, bench, p, k, tiles, d)? {
        Some(tile) => Ok(tile),
        None => Err(Fault::Input),
    }
}

/// The tiles of all aliases of a plan.
fn all_tiles(alloc: Global, p: &Plan, d: &Drawings<Brand>) -> Result<Vec<Tile>, Fault> {
    let mut bench = LaneBench::new(alloc);
    let mut tiles = Vec::new(alloc);
    for k in 0..p.aliases() {
        let tile = made(alloc, &mut bench, p, k, &tiles, d)?;
        tiles.push(tile)?;
    }
    Ok(tiles)
}

/// The job of an alias, where the tiles of its inputs stand in the order of the aliases.
#[derive(Drop)]
struct Compute<'a> {
    alloc: Global,
    bench: LaneBench,
    plan: &'a Plan,
    alias: u32,
    tiles: &'a Vec<Tile>,
    drawings: &'a Drawings<Brand>,
    ghost there: { alias < length plan.now.entries },
}

impl<'a> Work for Compute<'a> {
    fn run(&mut self) -> Result<(), Fault> {
        let (p, k) = (self.plan, self.alias);
        let _tile = made(self.alloc, &mut self.bench, p, k, self.tiles, self.drawings)?;
        Ok(())
    }
}

/// The time of a job, and that of the bare work where there is one.
type Times = (u64, Option<u64>);

/// The time of a job by itself.
fn alone<R: Clock>(rt: &R, compute: &mut Compute<'_>) -> Result<Times, Fault> {
    Ok((least(rt, compute)?, None))
}

/// The times of a job and of a bare work.
fn beside<R: Clock, W: Work>(
    rt: &R,
    compute: &mut Compute<'_>,
    bare: &mut W,
) -> Result<Times, Fault> {
    let (job, work) = least_of_two(rt, compute, bare)?;
    Ok((job, Some(work)))
}

/// The pixels of the tile that an alias reads at a port.
fn input<'a>(p: &Plan, k: u32, port: u32, tiles: &'a Vec<Tile>) -> Result<&'a Raster, Fault>
    requires { k < length p.now.entries }
{
    let Some(input) = p.input(k, port) else {
        return Err(Fault::Input);
    };
    match tiles.get(input as usize) {
        Some(tile) => Ok(tile.raster()),
        None => Err(Fault::Input),
    }
}

/// The times of a pair. One of a clear input stands by itself.
fn time_pair<R: Clock>(rt: &R, compute: &mut Compute<'_>, op: Op) -> Result<Times, Fault> {
    let (p, k, tiles) = (compute.plan, compute.alias, compute.tiles);
    let (first, second) = (input(p, k, 0, tiles)?, input(p, k, 1, tiles)?);
    if !first.has_bytes() || !second.has_bytes() {
        return alone(rt, compute);
    }
    let mut bare = PairRow::of(compute.alloc, op, first, second)?;
    beside(rt, compute, &mut bare)
}

/// The times of a blur.
fn time_blur<R: Clock>(rt: &R, compute: &mut Compute<'_>, radius: u32) -> Result<Times, Fault> {
    let (alloc, p, k) = (compute.alloc, compute.plan, compute.alias);
    let (input, rect) = (input(p, k, 0, compute.tiles)?, p.rect(k));
    if !is_read(input, radius, rect) {
        return Err(Fault::Input);
    }
    let mut bare = BareBlur {
        alloc,
        input,
        radius,
        rect,
    };
    beside(rt, compute, &mut bare)
}

/// The times of a card.
fn time_card<R: Clock>(rt: &R, compute: &mut Compute<'_>, pixel: Pixel) -> Result<Times, Fault> {
    let mut bare = FilledRow::of(compute.alloc, pixel, PIXELS)?;
    beside(rt, compute, &mut bare)
}

/// The times of a leaf: of CM32 words beside their row, of pixels beside a tile into which its rows are pasted. A clear
/// one stands by itself.
fn time_leaf<R: Clock>(rt: &R, compute: &mut Compute<'_>, drawing: u32) -> Result<Times, Fault> {
    let drawings = compute.drawings;
    let Some(tile) = compute.tiles.get(compute.alias as usize) else {
        return Err(Fault::Input);
    };
    if !tile.raster().has_bytes() {
        return alone(rt, compute);
    }
    let Some(held) = drawings.get(drawing) else {
        return Err(Fault::Input);
    };
    match (held.kind(), drawings.palette(drawing)) {
        (RawKind::Cm32, Some(palette)) => time_words(rt, compute, held.bytes(), palette),
        _ => time_pasted(rt, compute, tile),
    }
}

/// The times of a leaf beside its row of words.
fn time_words<R: Clock>(
    rt: &R,
    compute: &mut Compute<'_>,
    row: &[u8],
    palette: &Palette,
) -> Result<Times, Fault> {
    let mut bare = WordRow::of(compute.alloc, row, palette)?;
    beside(rt, compute, &mut bare)
}

/// The times of a leaf beside allocating a tile and pasting its rows.
fn time_pasted<R: Clock>(rt: &R, compute: &mut Compute<'_>, tile: &Tile) -> Result<Times, Fault> {
    let mut bare = PastedRows {
        alloc: compute.alloc,
        tile,
    };
    beside(rt, compute, &mut bare)
}

/// The times of a job.
fn time_job<R: Clock>(rt: &R, compute: &mut Compute<'_>) -> Result<Times, Fault> {
    match compute.plan.job(compute.alias) {
        Job::Pair(op) => time_pair(rt, compute, op),
        Job::Blur(radius) => time_blur(rt, compute, radius),
        Job::Leaf { drawing, .. } => time_leaf(rt, compute, drawing),
        Job::Card(pixel) => time_card(rt, compute, pixel),
        Job::Clear | Job::Tinted { .. } => Err(Fault::Input),
    }
}

/// The alias that the one tile of a plan's one row shows.
fn root_of(p: &Plan) -> Result<u32, Fault>
    ensures { IfOk result (λ k. k < length p.now.entries) }
{
    if p.rows() == 0 || p.tiles() == 0 {
        return Err(Fault::Input);
    }
    let root = p.root(0, 0);
    if root < p.aliases() {
        Ok(root)
    } else {
        Err(Fault::Input)
    }
}

/// The times of the job that a plan's one row shows.
fn time_root<R: Clock>(
    rt: &R,
    alloc: Global,
    p: &Plan,
    d: &Drawings<Brand>,
) -> Result<Times, Fault> {
    let root = root_of(p)?;
    let tiles = all_tiles(alloc, p, d)?;
    let mut compute = Compute {
        alloc,
        bench: LaneBench::new(alloc),
        plan: p,
        alias: root,
        tiles: &tiles,
        drawings: d,
    };
    time_job(rt, &mut compute)
}

/// The plan of the scene whose row shows what is told.
fn plan_showing(alloc: Global, shown: &str) -> Result<Plan, Fault> {
    let head = head();
    let text = format!(in alloc; "{head}{shown}]}}]}}")?;
    let good = good_scene(alloc, text.as_str())?;
    plan_of(alloc, &good, 1)
}

/// Prints the line of a case.
fn print_case<R: Clock + Print>(
    rt: &R,
    alloc: Global,
    d: &Drawings<Brand>,
    case: Case,
) -> Result<(), Fault> {
    let name = case.name;
    let p = plan_showing(alloc, case.shown)?;
    match time_root(rt, alloc, &p, d)? {
        (job, Some(bare)) => println!(rt; "bench {name} {job} {bare}")?,
        (job, None) => println!(rt; "bench {name} {job} -")?,
    }
    Ok(())
}

/// Prints a line for each case: the time of a pixel by the bench and by the bare work, in thousandths of a nanosecond;
/// a dash where there is no bare work.
pub(crate) fn time<R: Clock + Print>(rt: &R, alloc: Global) -> io::Result<()> {
    let d = held(alloc)?;
    for case in cases() {
        print_case(rt, alloc, &d, case)?;
    }
    Ok(())
}
