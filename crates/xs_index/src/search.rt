//! What the cells of a column, the keys of a peg and the keys of a palette say of a row, by searches in
//! lists in order.
ghost use Rattle.std.specs.Prelude.{◌≡◌, List, AllPairs};
ghost use Rattle.std.specs.List.Sorted.{IsPermutation};
ghost use Rattle.xs_scene.specs.Ranges.{IsOffset};
ghost use Rattle.xs_scene.specs.Records.{ColumnRecord, ColoursRecord, PegKeyRecord};
ghost use Rattle.xs_meaning.specs.Cells.{cell_at};
ghost use Rattle.xs_meaning.specs.Palettes.{key_at};
ghost use Rattle.xs_meaning.specs.Places.{own_offset as offset_at};
ghost use Rattle.xs_pixel.specs.Points.{point};
ghost use Rattle.xs_index.specs.Apart.{AreApart, DifferInRow, DifferInRowOrStyle};
ghost use Rattle.xs_index.specs.Order.{IsInOrder};

use crate::order::{last_at, next_at};
use xs_meaning::filters::palette_keys_are_chosen_by_row;
use xs_meaning::rules::{cells_are_chosen_by_row, keys_are_chosen_by_row};
use xs_scene::{Exposure, PegKey, Seen, StyleKey};
use xs_sheet::cells::seen_at;
use xs_sheet::keys::offset_between;

/// What a column shows at a row, by its cells in order. No two of them share a row.
pub fn seen_in(cells: &[Exposure], row: u32) -> Seen
    requires { IsInOrder (λ e. 0) (λ e. e.from) cells.now }
    ensures { (column : ColumnRecord) → IsPermutation column.cells cells.now → AllPairs AreApart column.cells
        → result ≡ cell_at column row }
{
    cells_are_chosen_by_row();
    let Some(exposure) = last_at(cells, 0, row) else {
        return Seen::Empty;
    };
    if row <= exposure.to {
        seen_at(&exposure, row)
    } else {
        Seen::Empty
    }
}

/// A peg's own offset at a row, by its keys in order. No two of them share a row.
pub fn offset_in(keys: &[PegKey], row: u32) -> (i32, i32)
    requires { IsInOrder (λ k. 0) (λ k. k.row) keys.now }
    ensures value { (list : List PegKeyRecord) → IsPermutation list keys.now → AllPairs DifferInRow list
        → point result.0 result.1 ≡ offset_at list row }
    ensures across { IsOffset result.0 }
    ensures up { IsOffset result.1 }
{
    keys_are_chosen_by_row();
    match last_at(keys, 0, row) {
        None => (0, 0),
        Some(key) => offset_between(&key, next_at(keys, 0, row), row),
    }
}

/// The key that sets a style at a row, by the keys of the palette in order. No two of one style share a
/// row.
pub fn key_in(keys: &[StyleKey], style: u32, row: u32) -> Option<StyleKey>
    requires { IsInOrder (λ k. k.style) (λ k. k.row) keys.now }
    ensures { (c : ColoursRecord) → IsPermutation c.keys keys.now → AllPairs DifferInRowOrStyle c.keys
        → result ≡ key_at c row style }
{
    palette_keys_are_chosen_by_row();
    last_at(keys, style, row)
}
