//! The index of a scene: its lists in the order of their rows.
ghost use Rattle.std.specs.Prelude.{◌≡◌, ℕ, [], IfOk, slice_index_or};
ghost use Rattle.xs_meaning.specs.Walk.{no_sheet};
ghost use Rattle.xs_index.specs.Index.{IsSheetIndex, IsIndexOf, cells_in, keys_in, style_keys_in, no_lists};
ghost use Rattle.xs_index.specs.Order.{IsOrderOf};

use crate::has_row::HasItems;
use crate::order::in_order;
use std::alloc::{AllocError, Global};
use xs_base::{List, Memory};
use xs_scene::{Exposure, PegKey, Scene, Sheet, StyleKey};

/// The cells of each column of a sheet, and the keys of each peg.
#[derive(Debug, Drop)]
pub struct SheetIndex {
    /// The cells of each column.
    pub columns: List<List<Exposure>>,
    /// The keys of each peg.
    pub pegs: List<List<PegKey>>,
}

/// The lists of each sheet, and the keys of each palette, all in order.
#[derive(Debug, Drop)]
pub struct Index {
    /// The lists of each sheet.
    pub sheets: List<SheetIndex>,
    /// The keys of each palette, style by style.
    pub palettes: List<List<StyleKey>>,
}

/// The items of each of some things in order. A thing that is not there has none.
fn lists_of<H: HasItems>(alloc: Global, things: &[H]) -> Result<List<List<H::Item>>, Memory>
    ensures { IfOk result (λ lists. (none : H) → H.items_of none ≡ [] → (i : ℕ)
        → IsOrderOf H.Item.group_of H.Item.row_of (H.items_of (slice_index_or things.now i none)) (slice_index_or lists i [])) }
{
    let mut lists = Vec::new(alloc);
    for thing in things {
        let list = in_order(alloc, thing.items())?;
        lists.push(list).map_err(AllocError::from)?;
    }
    Ok(List::of(lists))
}

/// The lists of a sheet.
fn sheet_of(alloc: Global, sheet: &Sheet) -> Result<SheetIndex, Memory>
    ensures { IfOk result (IsSheetIndex sheet.now) }
{
    Ok(SheetIndex {
        columns: lists_of(alloc, sheet.columns.items())?,
        pegs: lists_of(alloc, sheet.pegs.items())?,
    })
}

/// The lists of each sheet.
fn sheets_of(alloc: Global, sheets: &[Sheet]) -> Result<List<SheetIndex>, Memory>
    ensures { IfOk result (λ lists. (k : ℕ) → IsSheetIndex (slice_index_or sheets.now k no_sheet) (slice_index_or lists k no_lists)) }
{
    let mut lists = Vec::new(alloc);
    for sheet in sheets {
        let index = sheet_of(alloc, sheet)?;
        lists.push(index).map_err(AllocError::from)?;
    }
    Ok(List::of(lists))
}

/// A list among lists: empty where there is none with this number.
fn list_at<T>(lists: &List<List<T>>, i: u32) -> &[T]
    ensures { result.now ≡ slice_index_or lists.now i [] }
{
    match lists.items().get(i as usize) {
        Some(list) => list.items(),
        None => &[],
    }
}

impl Index {
    /// The index of a scene.
    pub fn of(alloc: Global, scene: &Scene) -> Result<Index, Memory>
        ensures { IfOk result (IsIndexOf scene.now) }
    {
        Ok(Index {
            sheets: sheets_of(alloc, scene.sheets.items())?,
            palettes: lists_of(alloc, scene.palettes.items())?,
        })
    }

    /// The cells of a column of a sheet, in order: none where there is no such column.
    pub fn cells(&self, sheet: u32, column: u32) -> &[Exposure]
        ensures { result.now ≡ cells_in self.now sheet column }
    {
        match self.sheets.items().get(sheet as usize) {
            Some(lists) => list_at(&lists.columns, column),
            None => &[],
        }
    }

    /// The keys of a peg of a sheet, in order: none where there is no such peg.
    pub fn keys(&self, sheet: u32, peg: u32) -> &[PegKey]
        ensures { result.now ≡ keys_in self.now sheet peg }
    {
        match self.sheets.items().get(sheet as usize) {
            Some(lists) => list_at(&lists.pegs, peg),
            None => &[],
        }
    }

    /// The keys of a palette, in order: none where there is no such palette.
    pub fn style_keys(&self, palette: u32) -> &[StyleKey]
        ensures { result.now ≡ style_keys_in self.now palette }
    {
        list_at(&self.palettes, palette)
    }
}
