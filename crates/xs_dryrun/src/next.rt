//! The next row of a scene.

ghost use Rattle.std.specs.Prelude.{◌≡◌, ◌<◌, ◌≤◌, ◌+◌, ◌*◌, ◌^◌, ◌++◌, ◌∷◌, ℕ, List, [], All, IfOk, OnOk, length};
ghost use Rattle.xs_check.specs.Good.{files_of};
ghost use Rattle.xs_meaning.specs.Expressions.{Expr, root_of};
ghost use Rattle.xs_plan.specs.declared.limits.TheConstants.{MOST_ALIASES as MOST, MOST_ROWS, MOST_TILES};
ghost use Rattle.xs_demand.specs.Renamed.{renamed};
ghost use Rattle.xs_build.specs.States.{named};
ghost use Rattle.xs_dryrun.specs.declared.limits.PlanFault.TheVariants.{Limit};
ghost use Rattle.xs_dryrun.specs.Filling.{IsFrame};
ghost use Rattle.xs_dryrun.specs.Passing.{greatest_of};
ghost use Rattle.xs_dryrun.specs.Planned.{AreRoots};
ghost use Rattle.xs_dryrun.specs.Trying.{MayFollow, TriesRoot};
ghost use Rattle.xs_dryrun.specs.Adding.{roots_under, MayAdd, TriesRows};

use crate::limits::{Counts, PlanFault, What, limit_of};
use crate::row::try_row;
use crate::rows::Rows;
use crate::whole::start;
use std::alloc::Global;
use xs_base::Memory;
use xs_build::{Build, Stop, reach};
use xs_check::GoodScene;
use xs_check::laws::drawings_of_rows_are_there;
use xs_demand::fit::{renaming_keeps_fit, the_roots_of_rows_are_fit};
use xs_demand::renamed::names_of_drawings_change_no_image;
use xs_plan::Builder;
use xs_plan::limits::{FARTHEST_REACH, MOST_ALIASES};
use xs_rect::Rect;

/// The plan of the rows so far, which is being built, and what they have entered.
#[derive(Drop)]
pub(crate) struct Underway {
    pub(crate) builder: Builder,
    pub(crate) build: Build,
    pub(crate) rows: Rows,
    // the numbers of the rows' roots among what was entered
    pub(crate) roots: Vec<u32>,
}

/// No row is added yet to the plan of so many rows on these tiles; any of them may be the first.
pub(crate) fn begin(alloc: Global, tiles: Vec<Rect>, rows: u32) -> Result<Underway, Memory>
    requires frame { IsFrame tiles.items }
    requires some_tiles { 1 ≤ length tiles.items }
    requires few_tiles { length tiles.items ≤ MOST_TILES }
    requires some_rows { 1 ≤ rows }
    requires few_rows { rows ≤ MOST_ROWS }
    ensures tiles { IfOk result (λ u. u.builder.plan.tiles ≡ tiles.items) }
    ensures room { IfOk result (λ u. u.builder.rows ≡ rows) }
    ensures many { IfOk result (λ u. u.rows.tiles ≡ length tiles.items) }
    ensures may { IfOk result (λ u. (drawings : ℕ) (names : List ℕ) (count : ℕ) → All (λ name. name < drawings) names
        → count ≤ rows → MayAdd drawings [] names 0 count u) }
{
    let (builder, numbers) = start(alloc, tiles, rows)?;
    Ok(Underway {
        builder,
        build: Build::new(alloc)?,
        rows: numbers,
        roots: Vec::new(alloc),
    })
}

/// How many expressions there may be after a row, where there were so many before it: if there are more, the row has
/// too many aliases on its first tile.
fn most_entered(tiles: u32, before: u32) -> u32
    requires some { 1 ≤ tiles }
    requires few { tiles * before ≤ MOST }
    ensures is { result + tiles * before ≡ MOST + before }
    ensures few { result < 2 ^ 30 }
{
    MOST_ALIASES - (tiles - 1) * before
}

/// Adds the next row, the row `row` of a scene with drawings under these names; it is row `place` of all, from 0.
pub(crate) fn add_next_row(
    way: &mut Underway,
    alloc: Global,
    s: &GoodScene,
    names: &[u32],
    row: u32,
    place: u32,
    tiles: &[Rect],
) -> Result<(), PlanFault>
    requires next { (drawings : ℕ) × (roots : List Expr)
        × MayFollow drawings roots names.now place way.old.build.entered way.old.rows way.old.builder }
    requires names { length names.now ≡ length (files_of s.now.levels) }
    requires tiles { way.old.builder.plan.tiles ≡ tiles.now }
    requires few { length tiles.now ≤ MOST_TILES }
    requires few_rows { place ≤ MOST_ROWS }
    requires rows { way.old.rows.tiles ≡ length tiles.now }
    ensures rows { OnOk result (way.new.rows.tiles ≡ way.old.rows.tiles) }
    ensures tiles { OnOk result (way.new.builder.plan.tiles ≡ way.old.builder.plan.tiles) }
    ensures room { OnOk result (way.new.builder.rows ≡ way.old.builder.rows) }
    ensures held { OnOk result ((earlier : List Expr) → AreRoots way.old.build.entered way.old.roots.items earlier
        → AreRoots way.new.build.entered way.new.roots.items (earlier ++ renamed (named names.now) (root_of s.now row) ∷ [])) }
    ensures tries { TriesRoot way.old.builder way.new.builder way.old.rows way.new.rows way.old.build.entered
        way.new.build.entered names.now place (renamed (named names.now) (root_of s.now row)) result }
{
    // a checked scene has fit roots, which stay fit and look as far under other names
    s.scene();
    drawings_of_rows_are_there();
    the_roots_of_rows_are_fit();
    renaming_keeps_fit();
    names_of_drawings_change_no_image();
    if reach(alloc, s, row)? > FARTHEST_REACH {
        return Err(too_much(What::Reach));
    }
    let was = Counts {
        spreads: way.build.entered().len(),
        inputs: way.build.entered().inputs(),
    };
    let tints = way.build.entered().tints();
    let most = most_entered(tiles.len() as u32, was.spreads);
    let Underway {
        builder,
        build,
        rows,
        roots,
    } = way;
    match build.root(alloc, s, names, row, most) {
        Ok(root) => {
            keep_root(roots, root)?;
            try_row(
                builder,
                alloc,
                build.entered(),
                rows,
                was,
                place,
                tints,
                root,
                tiles,
            )
        }
        Err(Stop::Full) => Err(too_much(What::Aliases)),
        Err(Stop::Memory) => Err(PlanFault::Memory),
    }
}

/// Puts the number of a root last.
fn keep_root(roots: &mut Vec<u32>, root: u32) -> Result<(), Memory>
    ensures { OnOk result (roots.new.items ≡ roots.old.items ++ root ∷ []) }
{
    roots.push(root)?;
    Ok(())
}

/// Adds so many rows from `from` on of a scene with drawings under these names; they follow `place` others.
pub(crate) fn add_rows(
    way: &mut Underway,
    alloc: Global,
    s: &GoodScene,
    names: &[u32],
    from: u32,
    count: u32,
    place: u32,
    tiles: &[Rect],
) -> Result<(), PlanFault>
    requires next { (drawings : ℕ) × (roots : List Expr) × MayAdd drawings roots names.now place count way.old }
    requires names { length names.now ≡ length (files_of s.now.levels) }
    requires tiles { way.old.builder.plan.tiles ≡ tiles.now }
    requires few { length tiles.now ≤ MOST_TILES }
    requires few_rows { place + count ≤ MOST_ROWS }
    requires last { from + count < 2 ^ 32 }
    requires rows { way.old.rows.tiles ≡ length tiles.now }
    ensures tries { TriesRows s.now names.now from place count way.old way.new result }
    ensures more { OnOk result ((drawings : ℕ) (roots : List Expr) (others : List ℕ) (later : ℕ)
        → MayAdd drawings roots names.now place count way.old → All (λ name. name < drawings) others
        → place + count + later ≤ way.old.builder.rows
        → MayAdd drawings (roots ++ roots_under s.now names.now from count) others (place + count) later way.new) }
{
    for i in 0..count {
        let added = add_next_row(way, alloc, s, names, from + i, place + i, tiles);
        if added.is_err() {
            return added;
        }
    }
    Ok(())
}

/// A limit is passed.
fn too_much(what: What) -> PlanFault
    ensures { result ≡ Limit what (greatest_of what) }
{
    PlanFault::Limit {
        what,
        limit: limit_of(what),
    }
}
