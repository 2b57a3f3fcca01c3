//! The tiles of a row.

ghost use Rattle.std.specs.Prelude.{◌≡◌, ◌<◌, ◌≤◌, ◌++◌, ◌∷◌, ℕ, List, [], OnOk, length, take};
ghost use Rattle.xs_meaning.specs.Expressions.{Expr};
ghost use Rattle.xs_plan.specs.declared.limits.TheConstants.{MOST_ROWS, MOST_TILES};
ghost use Rattle.xs_demand.specs.Blocks.{Spread, inputs_entered};
ghost use Rattle.xs_demand.specs.Shown.{tints_shown};
ghost use Rattle.xs_entered.specs.Entered.{tints_entered};
ghost use Rattle.xs_dryrun.specs.Row.{IsRowStart, FillsRowTo};
ghost use Rattle.xs_dryrun.specs.Planned.{Planned, AddsTints, IsEntered, IsNextRow, TriesRow};

use crate::fill::fill_tile;
use crate::limits::{Counts, PlanFault, limit_of, passed};
use crate::rows::Rows;
use std::alloc::Global;
use xs_base::Memory;
use xs_entered::Entered;
use xs_plan::Builder;
use xs_rect::Rect;

/// Fills a row on all tiles: with the expressions that were entered after so many, and with its root, which is the
/// expression with a number.
pub(crate) fn fill_row(
    builder: &mut Builder,
    entered: &Entered,
    rows: &Rows,
    before: u32,
    root: u32,
    tiles: &[Rect],
) -> Result<(), Memory>
    requires start { (drawings : ℕ) × (roots : List Expr) × (e : Expr)
        × IsRowStart drawings roots e entered.now rows.now builder.old before root }
    requires more { before ≤ length entered.now }
    requires root { root < length entered.now }
    requires tiles { builder.old.plan.tiles ≡ tiles.now }
    requires few { length tiles.now ≤ MOST_TILES }
    ensures { OnOk result (FillsRowTo builder.old entered.now rows.now before root (length tiles.now) builder.new) }
{
    for t in 0..tiles.len() {
        fill_tile(builder, entered, rows, before, root, t as u32, &tiles[t])?;
    }
    Ok(())
}

/// Adds a row whose root was entered last: its tints, and then its aliases and its root on all tiles. `tints` is
/// how many tints the plan has.
pub(crate) fn add_row(
    builder: &mut Builder,
    alloc: Global,
    entered: &Entered,
    rows: &mut Rows,
    tints: u32,
    root: u32,
    tiles: &[Rect],
) -> Result<(), Memory>
    requires row { (drawings : ℕ) × (roots : List Expr) × (e : Expr) × (was : List Spread)
        × Planned drawings roots was rows.old builder.old × IsEntered drawings roots e was entered.now root builder.old }
    requires tints { tints ≡ length builder.old.plan.tints }
    requires tiles { builder.old.plan.tiles ≡ tiles.now }
    requires few { length tiles.now ≤ MOST_TILES }
    requires rows { rows.old.tiles ≡ length tiles.now }
    requires root { root < length entered.now }
    ensures rows { OnOk result (rows.new.tiles ≡ rows.old.tiles) }
    ensures tiles { OnOk result (builder.new.plan.tiles ≡ builder.old.plan.tiles) }
    ensures room { OnOk result (builder.new.rows ≡ builder.old.rows) }
    ensures planned { OnOk result ((drawings : ℕ) (roots : List Expr) (e : Expr) (was : List Spread)
        → Planned drawings roots was rows.old builder.old → IsEntered drawings roots e was entered.now root builder.old
        → Planned drawings (roots ++ e ∷ []) entered.now rows.new builder.new) }
{
    let before = rows.firsts.len() as u32;
    add_tints(builder, alloc, entered, tints)?;
    rows.add(entered.len())?;
    fill_row(builder, entered, rows, before, root, tiles)
}

/// Adds a row whose root was entered last, where it is row `row` of all and passes no limit with the counts `was`
/// before it.
pub(crate) fn try_row(
    builder: &mut Builder,
    alloc: Global,
    entered: &Entered,
    rows: &mut Rows,
    was: Counts,
    row: u32,
    tints: u32,
    root: u32,
    tiles: &[Rect],
) -> Result<(), PlanFault>
    requires next { (drawings : ℕ) × (roots : List Expr) × (e : Expr) × (old : List Spread)
        × Planned drawings roots old rows.old builder.old × IsNextRow drawings roots e old entered.now root row was builder.old }
    requires tints { tints ≡ length builder.old.plan.tints }
    requires tiles { builder.old.plan.tiles ≡ tiles.now }
    requires few { length tiles.now ≤ MOST_TILES }
    requires few_rows { row ≤ MOST_ROWS }
    requires rows { rows.old.tiles ≡ length tiles.now }
    requires root { root < length entered.now }
    requires spreads { was.spreads ≤ length entered.now }
    requires inputs { was.inputs ≤ inputs_entered entered.now }
    ensures rows { OnOk result (rows.new.tiles ≡ rows.old.tiles) }
    ensures tiles { OnOk result (builder.new.plan.tiles ≡ builder.old.plan.tiles) }
    ensures room { OnOk result (builder.new.rows ≡ builder.old.rows) }
    ensures tries { TriesRow builder.old builder.new rows.old rows.new entered.now root row was result }
{
    let now = Counts {
        spreads: entered.len(),
        inputs: entered.inputs(),
    };
    if let Some(what) = passed(tiles.len() as u32, row, was, now) {
        return Err(PlanFault::Limit {
            what,
            limit: limit_of(what),
        });
    }
    add_row(builder, alloc, entered, rows, tints, root, tiles)?;
    Ok(())
}

/// Adds the tints that were entered, behind so many that are there.
fn add_tints(
    builder: &mut Builder,
    alloc: Global,
    entered: &Entered,
    from: u32,
) -> Result<(), Memory>
    requires from { tints_shown builder.old.plan ≡ take from (tints_entered entered.now) }
    requires more { from ≤ length (tints_entered entered.now) }
    ensures only { OnOk result (AddsTints builder.old builder.new) }
    ensures all { OnOk result (tints_shown builder.new.plan ≡ tints_entered entered.now) }
{
    for t in from..entered.tints() {
        builder.tint(entered.tint(t).copy(alloc)?)?;
    }
    Ok(())
}
