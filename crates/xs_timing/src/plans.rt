//! A plan at the limits: 4,194,304 aliases and 8,388,608 reads.

ghost use Rattle.std.specs.Prelude.{◌≡◌, ◌<◌, ◌≤◌, ◌+◌, ◌*◌, [], IfOk, OnOk, length, replicate};
ghost use Rattle.xs_plan.specs.Reads.{reads_in};
ghost use Rattle.xs_timing.specs.Made.{IsLast, IsMade, tile_area, wide_area};

use std::alloc::{AllocError, Global};
use std::rt::{Clock, Files};
use std::time::Instant;
use std::{fs, io};
use xs_base::Memory;
use xs_pixel::Op;
use xs_plan::laws::aliases_reach_what_their_inputs_reach;
use xs_plan::limits::MOST_BUILT;
use xs_plan::{Builder, Job, Plan};
use xs_rect::Rect;

/// The tiles of each row.
const TILES: u32 = 1024;

/// The rows. All aliases come in the first one.
const ROWS: u32 = 3;

/// The pairs of each tile, between a leaf and a blur.
const PAIRS: u32 = 4094;

/// The numbers of 8 bytes of 600 MiB.
const NUMBERS: u32 = 78_643_200;

/// Adds a leaf where no alias came since the last root.
fn add_leaf(b: &mut Builder, wide: Rect) -> Result<u32, Memory>
    requires made { IsMade b.old }
    requires few { length b.old.plan.roots < ROWS * TILES }
    requires room { length b.old.plan.entries < MOST_BUILT }
    requires rooted { b.old.rooted ≡ length b.old.plan.entries }
    requires on { wide ≡ wide_area }
    ensures made { OnOk result (IsMade b.new) }
    ensures last { IfOk result (λ k. IsLast b.new k wide_area) }
    ensures roots { OnOk result (b.new.plan.roots ≡ b.old.plan.roots) }
    ensures count { OnOk result (length b.new.plan.entries ≡ length b.old.plan.entries + 1) }
{
    aliases_reach_what_their_inputs_reach();
    let leaf = Job::Leaf {
        drawing: 0,
        dx: 0,
        dy: 0,
    };
    let k = b.add(leaf, wide, None, None)?;
    Ok(k)
}

/// Adds a pair of the last alias with itself.
fn add_pair(b: &mut Builder, wide: Rect, from: u32) -> Result<u32, Memory>
    requires made { IsMade b.old }
    requires few { length b.old.plan.roots < ROWS * TILES }
    requires room { length b.old.plan.entries < MOST_BUILT }
    requires last { IsLast b.old from wide_area }
    requires on { wide ≡ wide_area }
    ensures made { OnOk result (IsMade b.new) }
    ensures last { IfOk result (λ k. IsLast b.new k wide_area) }
    ensures roots { OnOk result (b.new.plan.roots ≡ b.old.plan.roots) }
    ensures count { OnOk result (length b.new.plan.entries ≡ length b.old.plan.entries + 1) }
{
    aliases_reach_what_their_inputs_reach();
    let k = b.add(Job::Pair(Op::Over), wide, Some(from), Some(from))?;
    Ok(k)
}

/// Adds a blur of the last alias.
fn add_blur(b: &mut Builder, tile: Rect, from: u32) -> Result<u32, Memory>
    requires made { IsMade b.old }
    requires few { length b.old.plan.roots < ROWS * TILES }
    requires room { length b.old.plan.entries < MOST_BUILT }
    requires last { IsLast b.old from wide_area }
    requires on { tile ≡ tile_area }
    ensures made { OnOk result (IsMade b.new) }
    ensures last { IfOk result (λ k. IsLast b.new k tile_area) }
    ensures roots { OnOk result (b.new.plan.roots ≡ b.old.plan.roots) }
    ensures count { OnOk result (length b.new.plan.entries ≡ length b.old.plan.entries + 1) }
{
    aliases_reach_what_their_inputs_reach();
    let k = b.add(Job::Blur(1), tile, Some(from), None)?;
    Ok(k)
}

/// Gives the next row and tile the last alias.
fn give_root(b: &mut Builder, k: u32) -> Result<(), Memory>
    requires made { IsMade b.old }
    requires few { length b.old.plan.roots < ROWS * TILES }
    requires last { IsLast b.old k tile_area }
    ensures made { OnOk result (IsMade b.new) }
    ensures last { OnOk result (IsLast b.new k tile_area) }
    ensures rooted { OnOk result (b.new.rooted ≡ length b.new.plan.entries) }
    ensures roots { OnOk result (length b.new.plan.roots ≡ length b.old.plan.roots + 1) }
    ensures entries { OnOk result (b.new.plan.entries ≡ b.old.plan.entries) }
{
    b.root(k)?;
    Ok(())
}

/// Adds the aliases of a tile: a leaf, pairs each of the one before with itself, and a blur.
fn add_chain(b: &mut Builder, wide: Rect, tile: Rect) -> Result<u32, Memory>
    requires made { IsMade b.old }
    requires few { length b.old.plan.roots < ROWS * TILES }
    requires room { length b.old.plan.entries + (PAIRS + 2) ≤ MOST_BUILT }
    requires rooted { b.old.rooted ≡ length b.old.plan.entries }
    requires wide { wide ≡ wide_area }
    requires tile { tile ≡ tile_area }
    ensures made { OnOk result (IsMade b.new) }
    ensures last { IfOk result (λ k. IsLast b.new k tile_area) }
    ensures roots { OnOk result (b.new.plan.roots ≡ b.old.plan.roots) }
    ensures count { OnOk result (length b.new.plan.entries ≡ length b.old.plan.entries + (PAIRS + 2)) }
{
    let mut k = add_leaf(b, wide)?;
    for _pair in 0..PAIRS {
        k = add_pair(b, wide, k)?;
    }
    let blur = add_blur(b, tile, k)?;
    Ok(blur)
}

/// Adds the first row, and answers its last alias.
fn add_row(b: &mut Builder, wide: Rect, tile: Rect) -> Result<u32, Memory>
    requires made { IsMade b.old }
    requires no_root { length b.old.plan.roots ≡ 0 }
    requires no_alias { length b.old.plan.entries ≡ 0 }
    requires rooted { b.old.rooted ≡ 0 }
    requires wide { wide ≡ wide_area }
    requires tile { tile ≡ tile_area }
    ensures made { OnOk result (IsMade b.new) }
    ensures last { IfOk result (λ k. IsLast b.new k tile_area) }
    ensures roots { OnOk result (length b.new.plan.roots ≡ TILES) }
    ensures count { OnOk result (length b.new.plan.entries ≡ (PAIRS + 2) * TILES) }
{
    let mut k = 0;
    for _tile in 0..TILES {
        k = add_chain(b, wide, tile)?;
        give_root(b, k)?;
    }
    Ok(k)
}

/// Gives the other rows the last alias on each tile.
fn repeat_row(b: &mut Builder, k: u32) -> Result<(), Memory>
    requires made { IsMade b.old }
    requires first { length b.old.plan.roots ≡ TILES }
    requires last { IsLast b.old k tile_area }
    ensures made { OnOk result (IsMade b.new) }
    ensures roots { OnOk result (length b.new.plan.roots ≡ ROWS * TILES) }
    ensures entries { OnOk result (b.new.plan.entries ≡ b.old.plan.entries) }
{
    for _root in TILES..ROWS * TILES {
        give_root(b, k)?;
    }
    Ok(())
}

/// So many tiles, each this one.
fn copies(alloc: Global, tile: Rect) -> Result<Vec<Rect>, AllocError>
    ensures { IfOk result (λ v. v.items ≡ replicate TILES tile) }
{
    let mut tiles = Vec::new(alloc);
    for _tile in 0..TILES {
        tiles.push(tile)?;
    }
    Ok(tiles)
}

/// The plan, by its builder alone.
fn build(alloc: Global, wide: Rect, tile: Rect) -> Result<Plan, Memory>
    requires wide { wide ≡ wide_area }
    requires tile { tile ≡ tile_area }
    ensures { IfOk result (λ p. length p.entries ≡ (PAIRS + 2) * TILES) }
{
    let mut b = Builder::new(alloc, copies(alloc, tile)?, ROWS)?;
    let k = add_row(&mut b, wide, tile)?;
    repeat_row(&mut b, k)?;
    b.finish(1)
}

fn failed() -> io::Error {
    io::Error::from(io::ErrorKind::OutOfMemory)
}

/// The plan, on the tile with the least corner.
fn build_there(alloc: Global) -> io::Result<Plan> {
    let (Some(wide), Some(tile)) = (Rect::new(-1, -1, 66, 66), Rect::new(0, 0, 64, 64)) else {
        return Err(failed());
    };
    build(alloc, wide, tile).map_err(|_memory| failed())
}

/// Fills 600 MiB with numbers, and answers how many there are.
fn fill(alloc: Global) -> Result<usize, AllocError> {
    let mut numbers = Vec::new(alloc);
    for number in 0..NUMBERS {
        numbers.push(u64::from(number))?;
    }
    Ok(numbers.len())
}

/// Prints the most memory that the process has had.
pub fn print_peak<R: Files + Print + AllocGlobal>(rt: &R) -> io::Result<()> {
    let status = fs::read_to_string(rt, "/proc/self/status")?;
    for line in status.lines() {
        if line.starts_with("VmHWM") {
            println!(rt; "{line}")?;
        }
    }
    Ok(())
}

/// Prints how long it takes to fill 600 MiB.
fn time_fill(rt: &(impl Print + Clock), alloc: Global) -> io::Result<()> {
    let start = Instant::now(rt)?;
    let numbers = fill(alloc)?;
    let micros = start.elapsed(rt)?.as_micros();
    println!(rt; "plan: {numbers} numbers of 8 bytes in {micros} microseconds")
}

/// Prints how long it takes to build the plan.
pub fn time_build(rt: &(impl Print + Clock), alloc: Global) -> io::Result<()> {
    let start = Instant::now(rt)?;
    let plan = build_there(alloc)?;
    let micros = start.elapsed(rt)?.as_micros();
    println!(rt;
        "plan: {} aliases and {} reads in {micros} microseconds",
        plan.aliases(),
        plan.reads()
    )
}

/// Prints how long it takes to build a plan at the limits and to fill 600 MiB, and the most memory of each.
pub fn time<R: Print + Clock + Files + AllocGlobal>(rt: &R, alloc: Global) -> io::Result<()> {
    time_build(rt, alloc)?;
    print_peak(rt)?;
    time_fill(rt, alloc)?;
    print_peak(rt)
}
