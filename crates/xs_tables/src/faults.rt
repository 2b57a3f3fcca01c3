//! What is left where one call of the outside after another fails.

use crate::outside::{Failing, Outside};
use crate::render::{Ended, push_asked, push_noted, run_over, status_text};
use std::alloc::Global;
use std::io;
use xs_outside::{MemLibrary, MemShelf, Object};
use xs_top::Status;

/// The most calls of one kind that are tried.
const MOST_CALLS: u64 = 10_000;

/// Whether a file has the name and the bytes of another.
fn is_same_file(file: &Object, other: &Object) -> bool {
    file.name.items() == other.name.items() && file.bytes.items() == other.bytes.items()
}

/// Whether the first files of a shelf stand on another, and no others.
fn are_first_of(some: &MemShelf, all: &MemShelf) -> bool {
    let (some, all) = (some.objects(), all.objects());
    some.len() <= all.len()
        && some
            .iter()
            .zip(all.iter())
            .all(|(file, other)| is_same_file(file, other))
}

/// How many frames are left, where they are the first ones of all.
fn push_frames(
    text: &mut String,
    alloc: Global,
    some: &MemShelf,
    all: &MemShelf,
) -> io::Result<()> {
    if !are_first_of(some, all) {
        return Ok(text.push_str("other frames")?);
    }
    let count = some.objects().len();
    let frames = format!(in alloc; "frames {count} of {}", all.objects().len())?;
    Ok(text.push_str(frames.as_str())?)
}

/// A new line with the call and its answer.
fn push_head(text: &mut String, alloc: Global, call: &str, status: &Status) -> io::Result<()> {
    let status = status_text(alloc, status)?;
    let head = format!(in alloc; "\n  {call}: {status}, ")?;
    Ok(text.push_str(head.as_str())?)
}

/// The answer, the names asked for, the frames and the notes, on a line that the call heads.
fn push_ended(
    text: &mut String,
    alloc: Global,
    call: &str,
    ended: &Ended<MemLibrary>,
    whole: &Ended<MemLibrary>,
) -> io::Result<()> {
    push_head(text, alloc, call, &ended.status)?;
    push_asked(text, &ended.library)?;
    text.push_str(", ")?;
    push_frames(text, alloc, &ended.shelf, &whole.shelf)?;
    if !ended.notes.bytes().is_empty() {
        text.push_str(", ")?;
        push_noted(text, &ended.notes)?;
    }
    Ok(())
}

/// What is left where the call of this kind with this number fails, on a line behind the others; and whether
/// it failed.
fn push_fault(
    lines: &mut String,
    alloc: Global,
    outside: &Outside,
    (kind, number): (&str, u64),
    words: &str,
    whole: &Ended<MemLibrary>,
) -> io::Result<bool> {
    let ended = run_over(alloc, outside, Failing::at(kind, number), words)?;
    let call = format!(in alloc; "{kind} {number}")?;
    push_ended(lines, alloc, call.as_str(), &ended, whole)?;
    Ok(matches!(ended.status, Status::ReadFault | Status::WriteFault))
}

/// How many calls of this kind the words make, and what is left where each in turn fails. Behind the last
/// call stands what is left where no call fails.
pub fn each_fault_text(
    alloc: Global,
    outside: &Outside,
    kind: &str,
    words: &str,
) -> io::Result<String> {
    let whole = run_over(alloc, outside, Failing::NONE, words)?;
    let mut lines = String::new(alloc);
    let mut calls = 0;
    for number in 1..=MOST_CALLS {
        if !push_fault(&mut lines, alloc, outside, (kind, number), words, &whole)? {
            break;
        }
        calls = number;
    }
    Ok(format!(in alloc; "{calls} calls{lines}")?)
}
