//! Scene texts: read, checked and written.

use std::alloc::Global;
use std::rt::Files;
use std::{fs, io};
use xs_check::{GoodScene, check};
use xs_fault::{FieldFault, SceneCode, SceneFault};
use xs_scene_json::{decode, encode};

/// The scene that a text says, checked.
fn checked(alloc: Global, text: &[u8]) -> Result<GoodScene, FieldFault> {
    let scene = decode(alloc, text)?;
    check(alloc, scene)
}

/// The number and the path of a fault.
fn fault_text(alloc: Global, fault: &SceneFault) -> io::Result<String> {
    let number = fault.code.number();
    let path = match fault.path.text() {
        "" => "(top)",
        path => path,
    };
    Ok(format!(in alloc; "{number} {path}")?)
}

/// `good`, or the number of the first fault and its path.
pub(crate) fn checked_text(alloc: Global, text: &[u8]) -> io::Result<String> {
    match checked(alloc, text) {
        Ok(_scene) => Ok(String::from_str(alloc, "good")?),
        Err(FieldFault::Fault(fault)) => fault_text(alloc, &fault),
        Err(FieldFault::Memory) => Err(io::Error::from(io::ErrorKind::OutOfMemory)),
    }
}

/// What checking tells of the scene of a file.
pub fn check_file<R: Files + AllocGlobal>(rt: &R, file: &str) -> io::Result<String> {
    let text = fs::read(rt, file)?;
    checked_text(rt.alloc(), &text)
}

/// Whether a text is no JSON.
fn is_no_json(alloc: Global, text: &[u8]) -> bool {
    match decode(alloc, text) {
        Err(FieldFault::Fault(fault)) => {
            fault.code == SceneCode::NotJson && fault.path.text().is_empty()
        }
        _ => false,
    }
}

/// How many front parts of a file, from no byte up to all but one, are no JSON.
pub fn check_prefixes<R: Files + AllocGlobal>(rt: &R, file: &str) -> io::Result<String> {
    let text = fs::read(rt, file)?;
    let mut refused = 0u32;
    for length in 0..text.len() {
        if is_no_json(rt.alloc(), &text[..length]) {
            refused = refused.saturating_add(1);
        }
    }
    Ok(format!(in rt.alloc(); "{refused} of {} are no JSON", text.len())?)
}

/// What checking tells of so many lists, each in the one before.
pub fn check_nested(alloc: Global, words: &str) -> io::Result<String> {
    let Ok(depth) = words.parse::<u16>() else {
        return Ok(String::from_str(alloc, "no number")?);
    };
    let mut text = String::new(alloc);
    for _ in 0..depth {
        text.push('[')?;
    }
    for _ in 0..depth {
        text.push(']')?;
    }
    checked_text(alloc, text.as_bytes())
}

/// Writes a piece with a number in place of each `#`.
fn push_piece(text: &mut String, number: &str, piece: &str) -> io::Result<()> {
    for (i, part) in piece.split('#').enumerate() {
        if i > 0 {
            text.push_str(number)?;
        }
        text.push_str(part)?;
    }
    Ok(())
}

/// Writes so many copies of a piece, with a number that counts up from `first`.
fn push_copies(
    text: &mut String,
    alloc: Global,
    first: u32,
    count: u32,
    piece: &str,
) -> io::Result<()> {
    for i in 0..count {
        if i > 0 {
            text.push(',')?;
        }
        let number = first.saturating_add(i).to_string(alloc)?;
        push_piece(text, number.as_str(), piece)?;
    }
    Ok(())
}

/// The text of a file with its `@` replaced by copies of a piece.
fn with_copies(
    alloc: Global,
    text: &str,
    first: u32,
    count: u32,
    piece: &str,
) -> io::Result<String> {
    let (front, back) = text.split_once('@').unwrap_or((text, ""));
    let mut whole = String::from_str(alloc, front)?;
    push_copies(&mut whole, alloc, first, count, piece)?;
    whole.push_str(back)?;
    Ok(whole)
}

/// The first word, and the rest.
fn word_of(words: &str) -> (&str, &str) {
    words.split_once(' ').unwrap_or((words, ""))
}

/// A scene of which one part is put in: the file's name and the part.
pub fn check_with<R: Files + AllocGlobal>(rt: &R, words: &str) -> io::Result<String> {
    let (file, piece) = word_of(words);
    let text = fs::read_to_string(rt, file)?;
    let whole = with_copies(rt.alloc(), text.as_str(), 0, 1, piece)?;
    checked_text(rt.alloc(), whole.as_bytes())
}

/// A scene into which many copies of a piece are put: the file's name, the first number, how many, and
/// the piece.
pub fn check_many<R: Files + AllocGlobal>(rt: &R, words: &str) -> io::Result<String> {
    let (file, words) = word_of(words);
    let (first, words) = word_of(words);
    let (count, piece) = word_of(words);
    let (Ok(first), Ok(count)) = (first.parse::<u32>(), count.parse::<u32>()) else {
        return Ok(String::from_str(rt.alloc(), "no number")?);
    };
    let text = fs::read_to_string(rt, file)?;
    let whole = with_copies(rt.alloc(), text.as_str(), first, count, piece)?;
    checked_text(rt.alloc(), whole.as_bytes())
}

/// The canonical text of the scene of a file, or its first fault.
pub fn show_file<R: Files + AllocGlobal>(rt: &R, file: &str) -> io::Result<String> {
    let text = fs::read(rt, file)?;
    let scene = match decode(rt.alloc(), &text) {
        Ok(scene) => scene,
        Err(FieldFault::Fault(fault)) => return fault_text(rt.alloc(), &fault),
        Err(FieldFault::Memory) => return Err(io::Error::from(io::ErrorKind::OutOfMemory)),
    };
    let Ok(shown) = encode(rt.alloc(), &scene) else {
        return Err(io::Error::from(io::ErrorKind::OutOfMemory));
    };
    match String::from_utf8(shown) {
        Ok(shown) => Ok(shown),
        Err(_) => Ok(String::from_str(rt.alloc(), "not UTF-8")?),
    }
}
