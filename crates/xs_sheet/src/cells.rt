ghost use Rattle.std.specs.Prelude.{◌≡◌, ◌≤◌, ◌-◌};
ghost use Rattle.xs_meaning.specs.Walk.{column_at};
ghost use Rattle.xs_meaning.specs.Cells.{cell_at, shown_after};

use xs_scene::{Column, Exposure, Seen, Sheet, Shown};

/// What a column of the sheet shows at a row: a drawing or a row of another sheet by the exposure whose
/// rows contain it, else nothing. A column that the sheet lacks shows nothing.
pub fn cell(s: &Sheet, col: u32, row: u32) -> Seen
    ensures { result ≡ cell_at (column_at s.now col) row }
{
    match s.columns.items().get(col as usize) {
        Some(column) => seen_in(column, row),
        None => Seen::Empty,
    }
}

/// What a column shows at a row.
fn seen_in(column: &Column, row: u32) -> Seen
    ensures { result ≡ cell_at column.now row }
{
    for exposure in column.cells.items() {
        if exposure.from <= row && row <= exposure.to {
            return seen_at(exposure, row);
        }
    }
    Seen::Empty
}

/// What an exposure shows at one of its rows.
pub fn seen_at(exposure: &Exposure, row: u32) -> Seen
    requires from { exposure.now.from ≤ row }
    requires to { row ≤ exposure.now.to }
    ensures { result ≡ shown_after (row - exposure.now.from) exposure.now.shown }
{
    match exposure.shown {
        Shown::Drawing { level, index } => Seen::Drawing { level, index },
        Shown::Sheet { sheet, start } => Seen::Row {
            sheet,
            row: start + (row - exposure.from),
        },
    }
}
