ghost use Rattle.std.specs.Prelude.{◌≡◌, ◌<◌, ◌≤◌, ◌+◌, ◌*◌, ◌++◌, IfOk, OnOk, length};
ghost use Rattle.xs_plan.specs.Record.{rows_in};
ghost use Rattle.xs_worker.specs.Sections.{column, section_roots};

use std::alloc::Global;
use xs_base::Memory;
use xs_base::limits::SECTION_ROWS;
use xs_plan::Plan;

/// The aliases of the rows and tiles of a section, tile by tile over its rows.
#[tactic(auto, using(crate::proofs::Columns::roots_more))]
pub fn section_targets(alloc: Global, p: &Plan, s: u32) -> Result<Vec<u32>, Memory>
    requires { s * SECTION_ROWS < rows_in p.now }
    ensures { IfOk result (λ v. v.items ≡ section_roots p.now s) }
{
    let all = p.rows();
    let first = s * SECTION_ROWS;
    let rows = SECTION_ROWS.min(all - first);
    let mut targets = Vec::new(alloc);
    for tile in 0..p.tiles() {
        push_column(&mut targets, p, tile, first, rows)?;
    }
    Ok(targets)
}

/// Adds the aliases of a tile over some rows.
#[tactic(auto, using(crate::proofs::Columns::column_more))]
fn push_column(
    targets: &mut Vec<u32>,
    p: &Plan,
    tile: u32,
    first: u32,
    rows: u32,
) -> Result<(), Memory>
    requires tile { tile < length p.now.tiles }
    requires rows { first + rows ≤ rows_in p.now }
    ensures { OnOk result (targets.new.items ≡ targets.old.items ++ column p.now tile first rows) }
{
    // that it is a number says that the sums are
    let _all = p.rows();
    for row in 0..rows {
        targets.push(p.root(first + row, tile))?;
    }
    Ok(())
}
