//! Cells that share rows: what checking says of lists of three, and what a look at each pair says.

use crate::scene::checked_text;
use std::alloc::Global;
use std::rt::Files;
use std::{fs, io};

/// The rows of a cell that stands in rows 1 to 3.
const SPANS: [(u32, u32); 6] = [(1, 1), (1, 2), (1, 3), (2, 2), (2, 3), (3, 3)];

/// The rows of three cells, by the number of their list.
fn spans_of(list: usize) -> [(u32, u32); 3] {
    [SPANS[list / 36 % 6], SPANS[list / 6 % 6], SPANS[list % 6]]
}

fn share_a_row(first: (u32, u32), second: (u32, u32)) -> bool {
    first.0 <= second.1 && second.0 <= first.1
}

/// The first cell that shares a row with an earlier one, by a look at each pair.
fn first_by_pairs(spans: [(u32, u32); 3]) -> Option<usize> {
    let [first, second, third] = spans;
    if share_a_row(first, second) {
        Some(1)
    } else if share_a_row(first, third) || share_a_row(second, third) {
        Some(2)
    } else {
        None
    }
}

/// A scene whose one column has cells in these rows.
fn scene_text(alloc: Global, text: &str, spans: [(u32, u32); 3]) -> io::Result<String> {
    let (front, back) = text.split_once('@').unwrap_or((text, ""));
    let mut whole = String::from_str(alloc, front)?;
    for (i, (from, to)) in spans.iter().enumerate() {
        if i > 0 {
            whole.push(',')?;
        }
        let cell = format!(in alloc; "{{\"from\":{from},\"to\":{to},\"level\":0,\"drawing\":0}}")?;
        whole.push_str(cell.as_str())?;
    }
    whole.push_str(back)?;
    Ok(whole)
}

/// What checking is to say of a list.
fn expected(first: Option<usize>) -> &'static str {
    match first {
        None => "good",
        Some(1) => "7 /sheets/0/columns/0/cells/1",
        Some(_) => "7 /sheets/0/columns/0/cells/2",
    }
}

/// Of all lists of three cells in rows 1 to 3: of how many checking says what a look at each pair says, and
/// how many are good, or have a fault at the second or the third cell.
pub fn check_lists<R: Files + AllocGlobal>(rt: &R, file: &str) -> io::Result<String> {
    let alloc = rt.alloc();
    let text = fs::read_to_string(rt, file)?;
    let mut counts = [0u32; 3];
    for list in 0..216 {
        let spans = spans_of(list);
        let first = first_by_pairs(spans);
        let whole = scene_text(alloc, text.as_str(), spans)?;
        let said = checked_text(alloc, whole.as_bytes())?;
        if said.as_str() == expected(first) {
            let place = first.unwrap_or(0);
            counts[place % 3] = counts[place % 3].saturating_add(1);
        }
    }
    let [good, second, third] = counts;
    Ok(format!(in alloc;
        "{good} good, {second} at the second cell, {third} at the third, as by pairs"
    )?)
}
