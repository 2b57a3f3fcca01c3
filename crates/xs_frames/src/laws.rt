//! Laws of the rows that are gathered.

ghost use Rattle.std.specs.Prelude.{◌≡◌, ◌<◌, ◌↔◌, ℕ};
ghost use Rattle.xs_plan.specs.Record.{PlanRecord};
ghost use Rattle.xs_plan.specs.Reads.{root_read_of};
ghost use Rattle.xs_core.specs.Views.{entries};
ghost use Rattle.xs_frames.specs.Rows.{root_reads};

/// What is served where a row's first tiles are gathered are the reads of these tiles, and no others.
pub fn a_row_has_the_reads_of_its_tiles()
    ensures { (p : PlanRecord) (row tiles e : ℕ) → 0 < entries e (root_reads p row tiles)
        ↔ ((tile : ℕ) × (tile < tiles) × (e ≡ root_read_of p row tile)) }
{}
