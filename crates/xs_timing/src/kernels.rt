//! The row kernels beside the plain rows, on whole tiles.

ghost use Rattle.std.specs.Prelude.{◌≡◌, ◌%◌, ◌*◌, length, vec_len, IfOk};
ghost use Rattle.std.specs.Simd.Lanes.{Each1};
ghost use Rattle.xs_pixel.specs.Channels.{IsPixel};
ghost use Rattle.xs_pixel.specs.PixelRows.{pixels};

use crate::tiles::{self, Kind, PIXELS, Random};
use std::alloc::Global;
use std::io::{self, Write};
use std::rt::Clock;
use std::time::Instant;
use xs_lanes::plain;
use xs_palette::Palette;
use xs_pixel::{Op, Pixel};

/// How many tiles are done between two looks at the clock, and how often; the least time counts.
const TILES: u32 = 16;

const ROUNDS: u32 = 500;

/// How many tiles are written for a comparison: a little over 10 million pixels.
const COMPARED: u32 = 2442;

const OPERATIONS: [Op; 8] = [
    Op::Over,
    Op::Add,
    Op::Sub,
    Op::Mult,
    Op::Min,
    Op::Max,
    Op::MatteIn,
    Op::MatteOut,
];

#[derive(Clone, Copy, Debug, PartialEq, Eq)]
enum Way {
    Lanes,
    Plain,
}

#[derive(Clone, Copy, Debug, PartialEq, Eq)]
enum Work {
    Operation(Op),
    Copy,
    Fill,
}

fn work_on(work: Work, way: Way, u: &[u8], d: &[u8], to: &mut [u8])
    requires same { length d.now ≡ length u.now }
    requires room { length to.old ≡ length u.now }
    requires whole { length u.now % 4 ≡ 0 }
    requires first { Each1 IsPixel (pixels u.now) }
    requires second { Each1 IsPixel (pixels d.now) }
{
    match (work, way) {
        (Work::Operation(op), Way::Lanes) => xs_lanes::op_row(op, u, d, to),
        (Work::Operation(op), Way::Plain) => plain::op_row(op, u, d, to),
        (Work::Copy, _) => to.copy_from_slice(u),
        (Work::Fill, Way::Lanes) => xs_lanes::fill_row(Pixel::CLEAR, to),
        (Work::Fill, Way::Plain) => plain::fill_row(Pixel::CLEAR, to),
    }
}

/// The time of one pixel of a batch, in thousandths of a nanosecond.
fn share(nanoseconds: u32) -> u64 {
    u64::from(nanoseconds) * 1000 / (u64::from(TILES) * u64::from(PIXELS))
}

/// The least time of a pixel, in thousandths of a nanosecond.
fn least<R: Clock>(
    rt: &R,
    work: Work,
    way: Way,
    u: &[u8],
    d: &[u8],
    to: &mut [u8],
) -> io::Result<u64>
    requires same { length d.now ≡ length u.now }
    requires room { length to.old ≡ length u.now }
    requires whole { length u.now % 4 ≡ 0 }
    requires first { Each1 IsPixel (pixels u.now) }
    requires second { Each1 IsPixel (pixels d.now) }
{
    let mut least = u64::MAX;
    for _ in 0..ROUNDS {
        let start = Instant::now(rt)?;
        for _ in 0..TILES {
            work_on(work, way, u, d, to);
        }
        least = least.min(share(start.elapsed(rt)?.subsec_nanos()));
    }
    Ok(least)
}

fn least_cm32<R: Clock>(
    rt: &R,
    way: Way,
    row: &[u8],
    palette: &Palette,
    to: &mut [u8],
) -> io::Result<u64>
    requires room { length to.old ≡ length row.now }
    requires whole { length row.now % 4 ≡ 0 }
{
    let mut least = u64::MAX;
    for _ in 0..ROUNDS {
        let start = Instant::now(rt)?;
        for _ in 0..TILES {
            match way {
                Way::Lanes => xs_lanes::cm32_row(row, palette, to),
                Way::Plain => plain::cm32_row(row, palette, to),
            }
        }
        least = least.min(share(start.elapsed(rt)?.subsec_nanos()));
    }
    Ok(least)
}

/// A tile of pixels under a palette of its own.
fn random_tile(alloc: Global, random: &mut Random, kind: Kind) -> io::Result<Vec<u8>>
    ensures long { IfOk result (λ v. vec_len v ≡ 4 * PIXELS) }
    ensures valid { IfOk result (λ v. Each1 IsPixel (pixels v.items)) }
{
    let palette = tiles::palette(alloc, random, kind)?;
    Ok(tiles::tile(alloc, random, &palette)?)
}

/// Prints the times of the operations and of filling, in one way.
fn time_way<R: Clock + Print>(
    rt: &R,
    way: Way,
    kind: Kind,
    u: &[u8],
    d: &[u8],
    to: &mut [u8],
) -> io::Result<()>
    requires same { length d.now ≡ length u.now }
    requires room { length to.old ≡ length u.now }
    requires whole { length u.now % 4 ≡ 0 }
    requires first { Each1 IsPixel (pixels u.now) }
    requires second { Each1 IsPixel (pixels d.now) }
{
    for op in OPERATIONS {
        let time = least(rt, Work::Operation(op), way, u, d, to)?;
        println!(rt; "{op:?} {way:?} {kind:?} {time}")?;
    }
    let fill = least(rt, Work::Fill, way, u, d, to)?;
    println!(rt; "Fill {way:?} {kind:?} {fill}")
}

/// Prints the times of the operations, of filling and of copying.
fn time_rows<R: Clock + Print>(
    rt: &R,
    kind: Kind,
    u: &[u8],
    d: &[u8],
    to: &mut [u8],
) -> io::Result<()>
    requires same { length d.now ≡ length u.now }
    requires room { length to.old ≡ length u.now }
    requires whole { length u.now % 4 ≡ 0 }
    requires first { Each1 IsPixel (pixels u.now) }
    requires second { Each1 IsPixel (pixels d.now) }
{
    time_way(rt, Way::Lanes, kind, u, d, to)?;
    time_way(rt, Way::Plain, kind, u, d, to)?;
    let copy = least(rt, Work::Copy, Way::Plain, u, d, to)?;
    println!(rt; "Copy Plain {kind:?} {copy}")
}

fn time_operations<R: Clock + Print>(rt: &R, alloc: Global, kind: Kind) -> io::Result<()> {
    let mut random = Random::new(7);
    let u = random_tile(alloc, &mut random, kind)?;
    let d = random_tile(alloc, &mut random, Kind::Noise)?;
    let mut to = vec![in alloc; 0u8; u.len()]?;
    time_rows(rt, kind, &u, &d, &mut to)
}

/// Prints the times of the colours of words that come so many times.
fn time_colours<R: Clock + Print>(
    rt: &R,
    times: u32,
    row: &[u8],
    palette: &Palette,
    to: &mut [u8],
) -> io::Result<()>
    requires room { length to.old ≡ length row.now }
    requires whole { length row.now % 4 ≡ 0 }
{
    for way in [Way::Lanes, Way::Plain] {
        let time = least_cm32(rt, way, row, palette, to)?;
        println!(rt; "Cm32 {way:?} Runs{times} {time}")?;
    }
    Ok(())
}

fn time_words<R: Clock + Print>(rt: &R, alloc: Global, times: u32) -> io::Result<()> {
    let mut random = Random::new(11);
    let palette = tiles::palette(alloc, &mut random, Kind::Noise)?;
    let row = tiles::words(alloc, &mut random, times)?;
    let mut to = vec![in alloc; 0u8; row.len()]?;
    time_colours(rt, times, &row, &palette, &mut to)
}

/// Prints a line for each kernel: its name, its way, its input, and the time of a pixel in
/// thousandths of a nanosecond.
pub fn time<R: Clock + Print>(rt: &R, alloc: Global) -> io::Result<()> {
    for kind in [Kind::Noise, Kind::Opaque, Kind::Clear] {
        time_operations(rt, alloc, kind)?;
    }
    for times in [1, 61] {
        time_words(rt, alloc, times)?;
    }
    Ok(())
}

/// Writes two tiles and what four operations make of them.
fn write_tiles<W: Write>(out: &mut W, u: &[u8], d: &[u8], to: &mut [u8]) -> io::Result<()>
    requires same { length d.now ≡ length u.now }
    requires room { length to.old ≡ length u.now }
    requires whole { length u.now % 4 ≡ 0 }
    requires first { Each1 IsPixel (pixels u.now) }
    requires second { Each1 IsPixel (pixels d.now) }
{
    out.write_all(u)?;
    out.write_all(d)?;
    for op in [Op::Over, Op::MatteIn, Op::MatteOut, Op::Add] {
        xs_lanes::op_row(op, u, d, to);
        out.write_all(to)?;
    }
    Ok(())
}

/// Makes two tiles, and writes them and what the operations make of them.
fn write_two<R: Print>(
    rt: &R,
    alloc: Global,
    random: &mut Random,
    palette: &Palette,
) -> io::Result<()> {
    let u = tiles::tile(alloc, random, palette)?;
    let d = tiles::tile(alloc, random, palette)?;
    let mut to = vec![in alloc; 0u8; u.len()]?;
    write_tiles(&mut io::writer(rt), &u, &d, &mut to)
}

/// Writes to standard output, tile after tile, an upper and a lower tile and the results of over, in,
/// out and add.
pub fn write_bytes<R: Print>(rt: &R, alloc: Global) -> io::Result<()> {
    let mut random = Random::new(3);
    let palette = tiles::palette(alloc, &mut random, Kind::Noise)?;
    for _ in 0..COMPARED {
        write_two(rt, alloc, &mut random, &palette)?;
    }
    Ok(())
}
