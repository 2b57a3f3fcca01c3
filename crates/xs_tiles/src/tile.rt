//! The tile of an alias, from those of its inputs.

ghost use Rattle.std.specs.Prelude.{◌≡◌, ◌<◌, ◌∷◌, ◌++◌, [], None, IfOk, IfSome, IsNone, IsTrue, OnErr, option_map, slice_get, length};
ghost use Rattle.xs_plan.specs.Record.{entry_at};
ghost use Rattle.xs_bench.specs.Inputs.{HasDrawing, HoldsInput, TileHolds};

use std::alloc::Global;
use xs_base::Memory;
use xs_bench::Bench;
use xs_pixel::Film;
use xs_plan::{Job, Plan};
use xs_raster::Tile;
use xs_rawfile::Drawings;

/// Whether a tile is that of an alias, where no pictures are told.
fn is_tile(p: &Plan, k: u32, tile: &Tile) -> bool
    ensures { IsTrue result → TileHolds None p.now k tile.now }
{
    k < p.aliases() && tile.alias() == k && tile.raster().rect() == p.rect(k)
}

/// Whether a tile is there exactly where an alias reads at a port, and is that of what it reads there.
fn is_input(p: &Plan, k: u32, port: u32, tile: Option<&Tile>) -> bool
    requires { k < length p.now.entries }
    ensures { IsTrue result → HoldsInput None p.now (slice_get (entry_at p.now.entries k).inputs port)
        (option_map (λ t. t.now) tile.entry) }
{
    match (p.input(k, port), tile) {
        (None, None) => true,
        (Some(input), Some(tile)) => is_tile(p, input, tile),
        (None, Some(_)) | (Some(_), None) => false,
    }
}

/// Whether the drawing of a job, if it has one, is held.
fn has_drawing<K: Film>(d: &Drawings<K>, job: Job) -> bool
    ensures { IsTrue result → HasDrawing d.now job }
{
    match job {
        Job::Leaf { drawing, .. } | Job::Tinted { drawing, .. } => d.get(drawing).is_some(),
        Job::Clear | Job::Card(_) | Job::Pair(_) | Job::Blur(_) => true,
    }
}

/// The tile that an alias reads at a port, if there is one, where tiles stand in the order of their aliases.
fn input<'a>(p: &Plan, k: u32, port: u32, tiles: &'a Vec<Tile>) -> Option<&'a Tile>
    requires { k < length p.now.entries }
{
    match p.input(k, port) {
        Some(input) => tiles.get(input as usize),
        None => None,
    }
}

/// The tile of an alias by a bench, where no pictures are told and the tiles of the earlier aliases stand in their
/// order. None where that of an input is missing, or the drawing isn't held; then the bench has computed nothing more.
pub fn make_tile<K: Film, B: Bench>(
    alloc: Global,
    bench: &mut B,
    p: &Plan,
    k: u32,
    tiles: &Vec<Tile>,
    d: &Drawings<K>,
) -> Result<Option<Tile>, Memory>
    requires untold { K.pictures ≡ None }
    requires there { k < length p.now.entries }
    ensures value { IfOk result (λ t. IfSome t (TileHolds K.pictures p.now k)) }
    ensures gained { IfOk result (λ t. IfSome t (λ _. B.made bench.new ≡ B.made bench.old ++ k ∷ [])) }
    ensures none { IfOk result (λ t. IsNone t → B.made bench.new ≡ B.made bench.old) }
    ensures left { OnErr result (B.made bench.new ≡ B.made bench.old) }
{
    let (a, b) = (input(p, k, 0, tiles), input(p, k, 1, tiles));
    if is_input(p, k, 0, a) && is_input(p, k, 1, b) && has_drawing(d, p.job(k)) {
        let tile = bench.compute(alloc, p, k, a, b, d)?;
        return Ok(Some(tile));
    }
    Ok(None)
}
