//! Items in the order of their rows.
ghost use Rattle.std.specs.Prelude.{◌≡◌, ◌<◌, ◌≤◌, ℕ, true, false, All, IfOk, MatchOption, length, slice_index_or};
ghost use Rattle.xs_index.specs.Order.{has_begun as begun_by, IsInOrder, IsOrderOf, IsLast, IsNext};

use crate::has_row::HasRow;
use std::alloc::Global;
use xs_base::{List, Memory};

/// The same items in the order of their rows, group by group.
pub fn in_order<T: HasRow>(alloc: Global, items: &[T]) -> Result<List<T>, Memory>
    ensures { IfOk result (IsOrderOf T.group_of T.row_of items.now) }
{
    let mut sorted = Vec::from_slice(alloc, items)?;
    sorted.sort_by_key(|item| item.row())?;
    sorted.sort_by_key(|item| item.group())?;
    Ok(List::of(sorted))
}

/// Whether an item stands in an earlier group, or in this group at or before a row.
fn has_begun<T: HasRow>(item: &T, group: u32, row: u32) -> bool
    ensures { result ≡ begun_by T.group_of T.row_of group row item.now }
{
    item.group() < group || item.group() == group && item.row() <= row
}

/// How many items stand in an earlier group, or in this group at or before a row.
fn begun<T: HasRow>(items: &[T], group: u32, row: u32) -> usize
    requires { IsInOrder T.group_of T.row_of items.now }
    ensures within { result ≤ length items.now }
    ensures before { (k : ℕ) (d : T) → k < result → begun_by T.group_of T.row_of group row (slice_index_or items.now k d) ≡ true }
    ensures after { (k : ℕ) (d : T) → result ≤ k → k < length items.now → begun_by T.group_of T.row_of group row (slice_index_or items.now k d) ≡ false }
{
    items.partition_point(|item| has_begun(item, group, row))
}

/// The last item of a group at or before a row.
pub(crate) fn last_at<T: HasRow>(items: &[T], group: u32, row: u32) -> Option<T>
    requires { IsInOrder T.group_of T.row_of items.now }
    ensures { MatchOption result (All (λ k. T.group_of k ≡ group → row < T.row_of k) items.now) (IsLast T.group_of T.row_of group row items.now) }
{
    let count = begun(items, group, row);
    if count == 0 {
        return None;
    }
    let item = items[count - 1];
    if item.group() == group {
        Some(item)
    } else {
        None
    }
}

/// The first item of a group after a row.
pub(crate) fn next_at<T: HasRow>(items: &[T], group: u32, row: u32) -> Option<T>
    requires { IsInOrder T.group_of T.row_of items.now }
    ensures { MatchOption result (All (λ k. T.group_of k ≡ group → T.row_of k ≤ row) items.now) (IsNext T.group_of T.row_of group row items.now) }
{
    let count = begun(items, group, row);
    if count == items.len() {
        return None;
    }
    let item = items[count];
    if item.group() == group {
        Some(item)
    } else {
        None
    }
}
