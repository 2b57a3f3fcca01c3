//! The limits of a plan, by arithmetic: nothing need be added to know whether a row passes one.

ghost use Rattle.std.specs.Prelude.{◌≡◌, ◌<◌, ◌≤◌, ◌+◌, ◌*◌, ◌++◌, ◌∷◌, ◌^◌, ℕ, None, List, [], IfSome};
ghost use Rattle.std.specs.Option.{option_map};
ghost use Rattle.xs_rect.specs.Area.{Area};
ghost use Rattle.xs_meaning.specs.Expressions.{Expr};
ghost use Rattle.xs_demand.specs.Limits.{first_limit};
ghost use Rattle.xs_dryrun.specs.declared.limits.PlanFault.TheVariants.{Memory as NoMemory};
ghost use Rattle.xs_dryrun.specs.Passing.{greatest_of, through as through_tile, passed_by, what_of, IsRowOf, PassedOn};

use xs_base::Memory as WantOfMemory;
use xs_plan::limits::{FARTHEST_REACH, MOST_ALIASES, MOST_READS};

/// What is too much.
#[derive(Clone, Copy, Debug, PartialEq, Eq)]
pub enum What {
    /// A row looks too far beyond a tile through its blurs.
    Reach,
    /// There are too many aliases.
    Aliases,
    /// There are too many reads.
    Reads,
    /// A section would take too many bytes.
    SectionBytes,
}

/// Why there is no plan.
#[derive(Clone, Copy, Debug, PartialEq, Eq)]
pub enum PlanFault {
    /// A limit is passed; `limit` is the greatest number that there may be.
    Limit { what: What, limit: u64 },
    /// Memory was wanted and there was none.
    Memory,
}

impl From<WantOfMemory> for PlanFault {
    ghost from_gives = { λ _ fault. fault ≡ NoMemory };

    fn from(_error: WantOfMemory) -> Self {
        PlanFault::Memory
    }
}

/// How many expressions were entered, and how many inputs these have.
#[derive(Clone, Copy)]
pub(crate) struct Counts {
    pub(crate) spreads: u32,
    pub(crate) inputs: u32,
}

/// The greatest number that there may be of what a row is tried for; 0 for bytes, for which no row is tried.
pub(crate) fn limit_of(what: What) -> u64
    ensures { result ≡ greatest_of what }
{
    match what {
        What::Reach => FARTHEST_REACH as u64,
        What::Aliases => MOST_ALIASES as u64,
        What::Reads => MOST_READS as u64,
        What::SectionBytes => 0,
    }
}

/// The limit that a row passes first on its tiles; None where it passes none. The counts `was` are those before
/// the row, `now` those after it.
pub(crate) fn passed(tiles: u32, row: u32, was: Counts, now: Counts) -> Option<What>
    requires few_tiles { tiles ≤ 2 ^ 12 }
    requires few_rows { row ≤ 2 ^ 12 }
    requires spreads { was.spreads ≤ now.spreads }
    requires inputs { was.inputs ≤ now.inputs }
    ensures none { result ≡ None → (tile : ℕ) → tile < tiles → passed_by tiles row was now tile ≡ None }
    ensures some { IfSome result (PassedOn tiles row was now) }
    ensures first { (areas : List Area) (roots : List Expr) (e : Expr) → IsRowOf areas roots e tiles row was now
        → first_limit areas roots ≡ None → option_map what_of (first_limit areas (roots ++ e ∷ [])) ≡ result }
{
    first_passed(tiles, row, was, now)
}

/// The same, found tile by tile.
fn first_passed(tiles: u32, row: u32, was: Counts, now: Counts) -> Option<What>
    requires few_tiles { tiles ≤ 2 ^ 12 }
    requires few_rows { row ≤ 2 ^ 12 }
    requires spreads { was.spreads ≤ now.spreads }
    requires inputs { was.inputs ≤ now.inputs }
    ensures none { result ≡ None → (tile : ℕ) → tile < tiles → passed_by tiles row was now tile ≡ None }
    ensures some { IfSome result (PassedOn tiles row was now) }
{
    for tile in 0..tiles {
        let found = passed_on(tiles, row, was, now, tile);
        if found.is_some() {
            return found;
        }
    }
    None
}

/// The limit that a row passes on one tile.
fn passed_on(tiles: u32, row: u32, was: Counts, now: Counts, tile: u32) -> Option<What>
    requires few_tiles { tiles ≤ 2 ^ 12 }
    requires few_rows { row ≤ 2 ^ 12 }
    requires tile { tile < tiles }
    requires spreads { was.spreads ≤ now.spreads }
    requires inputs { was.inputs ≤ now.inputs }
    ensures { result ≡ passed_by tiles row was now tile }
{
    let visited = row * tiles + tile + 1;
    if through(tiles, tile, was.spreads, now.spreads) > MOST_ALIASES as u64 {
        Some(What::Aliases)
    } else if through(tiles, tile, was.inputs, now.inputs) + visited as u64 > MOST_READS as u64 {
        Some(What::Reads)
    } else {
        None
    }
}

/// How many there are after a tile of a row, where there were so many on each tile before it, and are so many on
/// each after it.
fn through(tiles: u32, tile: u32, before: u32, after: u32) -> u64
    requires few_tiles { tiles ≤ 2 ^ 12 }
    requires tile { tile < tiles }
    requires more { before ≤ after }
    ensures is { result ≡ through_tile tiles tile before after }
    ensures few { result ≤ 2 ^ 46 }
{
    product(tiles, before) + product(tile + 1, after - before)
}

/// A number of tiles times a count.
fn product(tiles: u32, count: u32) -> u64
    requires few_tiles { tiles ≤ 2 ^ 12 }
    ensures is { result ≡ tiles * count }
    ensures few { result ≤ 2 ^ 45 }
{
    tiles as u64 * count as u64
}
