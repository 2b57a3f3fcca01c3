//! The aliases of a row, tile by tile.

ghost use Rattle.std.specs.Prelude.{◌≡◌, ◌<◌, ◌≤◌, ℕ, List, OnOk, length, slice_get};
ghost use Rattle.xs_meaning.specs.Expressions.{Expr};
ghost use Rattle.xs_plan.specs.Draft.{LacksRoots};
ghost use Rattle.xs_dryrun.specs.Filling.{MayTell, IsInputOn, IsNext, AddsNext};
ghost use Rattle.xs_dryrun.specs.Tile.{IsAtTile, FilledTo, IsRowAt, FillsTile};

use crate::rows::Rows;
use xs_base::Memory;
use xs_entered::Entered;
use xs_plan::Builder;
use xs_rect::Rect;

/// Adds the alias of an expression on a tile, which has the next number.
pub(crate) fn add_next(
    builder: &mut Builder,
    entered: &Entered,
    rows: &Rows,
    j: u32,
    tile: u32,
    area: &Rect,
) -> Result<(), Memory>
    requires next { (drawings : ℕ) × (roots : List Expr) × IsNext drawings roots entered.now rows.now builder.old j tile area.now }
    requires lacks_roots { LacksRoots builder.old }
    ensures { OnOk result (AddsNext builder.old builder.new entered.now rows.now j tile area.now) }
{
    let Some(rect) = area.grow(entered.growth(j)) else {
        unreachable!()
    };
    let a = input_number(entered, rows, j, tile, 0);
    let b = input_number(entered, rows, j, tile, 1);
    builder.add(entered.job(j), rect, a, b)?;
    Ok(())
}

/// The number of the alias that the one of an expression on a tile reads at a port.
fn input_number(entered: &Entered, rows: &Rows, j: u32, tile: u32, port: u32) -> Option<u32>
    requires there { j < length entered.now }
    requires rows { MayTell rows.now (length entered.now) tile }
    ensures { IsInputOn entered.now rows.now j tile port result }
{
    match entered.input(j, port) {
        Some(n) => Some(rows.number(n, tile)),
        None => None,
    }
}

/// Adds the aliases of a row's new expressions on a tile: of those that were entered after so many.
fn add_new(
    builder: &mut Builder,
    entered: &Entered,
    rows: &Rows,
    before: u32,
    tile: u32,
    area: &Rect,
) -> Result<(), Memory>
    requires at { (drawings : ℕ) × (roots : List Expr) × (e : Expr)
        × IsAtTile drawings roots e entered.now rows.now builder.old before tile area.now }
    requires lacks_roots { LacksRoots builder.old }
    requires more { before ≤ length entered.now }
    ensures { OnOk result (FilledTo builder.old entered.now rows.now before (length entered.now) tile area.now builder.new) }
{
    for j in before..entered.len() {
        add_next(builder, entered, rows, j, tile, area)?;
    }
    Ok(())
}

/// Fills a tile of a row: its new aliases, and then its root, which is the expression with a number.
pub(crate) fn fill_tile(
    builder: &mut Builder,
    entered: &Entered,
    rows: &Rows,
    before: u32,
    root: u32,
    tile: u32,
    area: &Rect,
) -> Result<(), Memory>
    requires at { (drawings : ℕ) × (roots : List Expr) × (e : Expr)
        × IsRowAt drawings roots e entered.now rows.now builder.old before tile root area.now }
    requires lacks_roots { LacksRoots builder.old }
    requires more { before ≤ length entered.now }
    requires root { root < length entered.now }
    ensures { OnOk result (FillsTile builder.old builder.new entered.now rows.now before tile root area.now) }
{
    add_new(builder, entered, rows, before, tile, area)?;
    builder.root(rows.number(root, tile))?;
    Ok(())
}
