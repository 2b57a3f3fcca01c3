//! The first item that shares a row with an earlier one of its group. Whether some items do is seen from
//! neighbours once they are in order; the first is found by halving.
ghost use Rattle.std.specs.Prelude.{◌≤◌, ◌↔◌, IfOk, IsTrue, All, AllPairs, length};
ghost use Rattle.xs_index.specs.Order.{IsInOrder};
ghost use Rattle.xs_check.specs.Shared.{EndsBefore, IsFront, IsFirstShared, IsSheetInOrder, IsIndexInOrder, IsSheetApart, IsIndexApart};

use std::alloc::Global;
use xs_base::{List, Memory};
use xs_index::{HasRow, Index, SheetIndex, in_order};

/// Whether an item is of an earlier group than the next one, or ends before that one begins.
fn ends_before<T: HasRow>(item: &T, next: &T) -> bool
    ensures ends { IsTrue result ↔ EndsBefore T.group_of T.row_of T.last_of item.now next.now }
    ensures span { T.row_of next.now ≤ T.last_of next.now }
{
    let (_, last) = item.rows();
    let (first, _) = next.rows();
    item.group() < next.group() || item.group() == next.group() && last < first
}

/// Whether no two of some items in order share a row.
fn each_ends_before<T: HasRow>(items: &[T]) -> bool
    requires { IsInOrder T.group_of T.row_of items.now }
    ensures { IsTrue result ↔ AllPairs T.apart items.now }
{
    for i in 1..items.len() {
        if !ends_before(&items[i - 1], &items[i]) {
            return false;
        }
    }
    true
}

/// Whether no two items of one of some lists in order share a row.
fn lists_apart<T: HasRow>(lists: &[List<T>]) -> bool
    requires { All (IsInOrder T.group_of T.row_of) lists.now }
    ensures { IsTrue result ↔ All (AllPairs T.apart) lists.now }
{
    for list in lists {
        if !each_ends_before(list.items()) {
            return false;
        }
    }
    true
}

/// Whether no two items of one of the lists of a sheet share a row.
fn sheet_apart(lists: &SheetIndex) -> bool
    requires { IsSheetInOrder lists.now }
    ensures { IsTrue result ↔ IsSheetApart lists.now }
{
    lists_apart(lists.columns.items()) && lists_apart(lists.pegs.items())
}

/// Whether no two items of one of the lists of the sheets share a row.
fn sheets_apart(sheets: &[SheetIndex]) -> bool
    requires { All IsSheetInOrder sheets.now }
    ensures { IsTrue result ↔ All IsSheetApart sheets.now }
{
    for lists in sheets {
        if !sheet_apart(lists) {
            return false;
        }
    }
    true
}

/// Whether no two items of one of the lists of an index share a row.
pub(crate) fn index_apart(index: &Index) -> bool
    requires { IsIndexInOrder index.now }
    ensures { IsTrue result ↔ IsIndexApart index.now }
{
    lists_apart(index.palettes.items()) && sheets_apart(index.sheets.items())
}

/// Whether no two share a row.
fn are_apart<T: HasRow>(alloc: Global, items: &[T]) -> Result<bool, Memory>
    ensures { IfOk result (λ b. IsTrue b ↔ AllPairs T.apart items.now) }
{
    let sorted = in_order(alloc, items)?;
    Ok(each_ends_before(sorted.items()))
}

/// How many items of the front stand apart where one more does not.
fn apart_front<T: HasRow>(alloc: Global, items: &[T]) -> Result<usize, Memory>
    requires { AllPairs T.apart items.now → ⊥ }
    ensures { IfOk result (IsFront T.apart items.now) }
{
    let mut apart = 0;
    let mut shared = items.len();
    while shared - apart > 1 {
        let middle = apart + (shared - apart) / 2;
        if are_apart(alloc, &items[..middle])? {
            apart = middle;
        } else {
            shared = middle;
        }
    }
    Ok(apart)
}

/// The first item that shares a row with an earlier one of its group.
pub(crate) fn first_shared<T: HasRow>(alloc: Global, items: &[T]) -> Result<Option<usize>, Memory>
    ensures { IfOk result (IsFirstShared T.apart items.now) }
{
    if are_apart(alloc, items)? {
        Ok(None)
    } else {
        Ok(Some(apart_front(alloc, items)?))
    }
}
