//! The top call over an outside in memory.

use crate::faults::each_fault_text;
use crate::frame::push_frame;
use crate::outside::{Failing, Outside};
use std::alloc::Global;
use std::{io, str};
use xs_outside::{Library, MemLibrary, MemNotes, MemShelf, QuietLibrary};
use xs_top::{Status, fault_text, lane_benches, run, status_number};

/// The words of a command line.
fn words_of(alloc: Global, words: &str) -> io::Result<Vec<String>> {
    let mut list = Vec::new(alloc);
    for word in words.split_whitespace() {
        list.push(String::from_str(alloc, word)?)?;
    }
    Ok(list)
}

/// The text of some bytes.
fn push_bytes(text: &mut String, bytes: &[u8]) -> io::Result<()> {
    Ok(text.push_str(str::from_utf8(bytes).unwrap_or("(not UTF-8)"))?)
}

/// What a run answers, and what it leaves.
#[derive(Debug, Drop)]
pub struct Ended<L> {
    pub status: Status,
    pub library: L,
    pub shelf: MemShelf,
    pub notes: MemNotes,
}

/// What the words leave over this library, where these calls of the shelf and the notes fail.
fn run_with<L: Library + Drop>(
    alloc: Global,
    mut library: L,
    failing: Failing,
    words: &str,
) -> io::Result<Ended<L>> {
    let words = words_of(alloc, words)?;
    let mut shelf = MemShelf::new(alloc, vec![in alloc; failing.put]?);
    let mut notes = MemNotes::new(alloc, vec![in alloc; failing.note]?);
    let Ok(mut benches) = lane_benches(alloc) else {
        return Err(io::Error::from(io::ErrorKind::OutOfMemory));
    };
    let mut end = None;
    let status = run(
        alloc,
        &words,
        &mut library,
        &mut shelf,
        &mut notes,
        &mut benches,
        &mut end,
    );
    Ok(Ended {
        status,
        library,
        shelf,
        notes,
    })
}

/// What the words leave over these files, where these calls fail.
pub fn run_over(
    alloc: Global,
    outside: &Outside,
    failing: Failing,
    words: &str,
) -> io::Result<Ended<MemLibrary>> {
    let library = outside.library(alloc, failing.get)?;
    run_with(alloc, library, failing, words)
}

/// The number of a status and its text.
pub fn status_text(alloc: Global, status: &Status) -> io::Result<String> {
    let mut text = status_number(status).to_string(alloc)?;
    let Ok(fault) = fault_text(alloc, status) else {
        return Err(io::Error::from(io::ErrorKind::OutOfMemory));
    };
    if !fault.is_empty() {
        text.push(' ')?;
        push_bytes(&mut text, &fault)?;
    }
    Ok(text)
}

/// The names that were asked for.
pub fn push_asked(text: &mut String, library: &MemLibrary) -> io::Result<()> {
    text.push_str("asked")?;
    for name in library.asked() {
        text.push(' ')?;
        push_bytes(text, name.items())?;
    }
    Ok(())
}

/// The text of the notes.
fn noted(notes: &MemNotes) -> &str {
    str::from_utf8(notes.bytes()).unwrap_or("(not UTF-8)")
}

/// What was noted, without the end of its line.
pub fn push_noted(text: &mut String, notes: &MemNotes) -> io::Result<()> {
    text.push_str("noted ")?;
    push_bytes(text, notes.bytes().trim_ascii_end())
}

/// The frames on the shelf, and what was noted, if anything.
fn push_made<L>(text: &mut String, alloc: Global, ended: &Ended<L>) -> io::Result<()> {
    for object in ended.shelf.objects() {
        text.push_str("\n  ")?;
        push_bytes(text, object.name.items())?;
        push_frame(text, alloc, object.bytes.items())?;
    }
    for line in noted(&ended.notes).lines() {
        text.push_str("\n  noted ")?;
        text.push_str(line)?;
    }
    Ok(())
}

/// What a run did.
fn ended_text(alloc: Global, ended: &Ended<MemLibrary>) -> io::Result<String> {
    let mut text = status_text(alloc, &ended.status)?;
    if !ended.library.asked().is_empty() {
        text.push_str("\n  ")?;
        push_asked(&mut text, &ended.library)?;
    }
    push_made(&mut text, alloc, ended)?;
    Ok(text)
}

/// What a run over a library that tells nothing did.
fn quiet_ended_text(alloc: Global, ended: &Ended<QuietLibrary<MemLibrary>>) -> io::Result<String> {
    let mut text = status_text(alloc, &ended.status)?;
    let faults = format!(in alloc; "\n  faults {}", ended.library.faults())?;
    text.push_str(faults.as_str())?;
    push_made(&mut text, alloc, ended)?;
    Ok(text)
}

/// What the words do over these files, where these calls fail.
fn run_text(alloc: Global, outside: &Outside, failing: Failing, words: &str) -> io::Result<String> {
    let ended = run_over(alloc, outside, failing, words)?;
    ended_text(alloc, &ended)
}

/// What the words do over these files in a library that tells nothing.
fn quiet_text(alloc: Global, outside: &Outside, words: &str) -> io::Result<String> {
    let library = QuietLibrary::new(outside.library(alloc, 0)?);
    let ended = run_with(alloc, library, Failing::NONE, words)?;
    quiet_ended_text(alloc, &ended)
}

/// What the words answer over these files, and the last line that was noted, if any.
fn counted_text(alloc: Global, outside: &Outside, words: &str) -> io::Result<String> {
    let ended = run_over(alloc, outside, Failing::NONE, words)?;
    let mut text = status_text(alloc, &ended.status)?;
    let lines = noted(&ended.notes).trim_end();
    let last = match lines.rsplit_once('\n') {
        Some((_, last)) => last,
        None => lines,
    };
    if !last.is_empty() {
        text.push_str("\n  at last ")?;
        text.push_str(last)?;
    }
    Ok(text)
}

/// What the words do where one call fails, or each in turn: the kind of the call and its number, or `every`
/// and the kind, come before them.
fn failing_text(alloc: Global, outside: &Outside, words: &str) -> io::Result<String> {
    let (kind, words) = words.split_once(' ').unwrap_or((words, ""));
    let (number, words) = words.split_once(' ').unwrap_or((words, ""));
    if kind == "every" {
        return each_fault_text(alloc, outside, number, words);
    }
    match number.parse::<u64>() {
        Ok(number) => run_text(alloc, outside, Failing::at(kind, number), words),
        Err(_) => Ok(String::from_str(alloc, "no number")?),
    }
}

/// What a render does.
pub fn told(alloc: Global, outside: &Outside, command: &str, words: &str) -> io::Result<String> {
    match command {
        "run" => run_text(alloc, outside, Failing::NONE, words),
        "fail" => failing_text(alloc, outside, words),
        "counted" => counted_text(alloc, outside, words),
        "quiet" => quiet_text(alloc, outside, words),
        _ => Ok(String::from_str(alloc, "unknown call")?),
    }
}
