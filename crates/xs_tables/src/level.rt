//! Raw level files.

use crate::hexadecimal::push_pixels;
use std::alloc::Global;
use std::rt::Files;
use std::{fs, io};
use xs_rawfile::{Drawing, LevelCode, LevelFault, RawKind, read_level, write_level};

/// The kind that a word names.
fn kind_of(word: &str) -> RawKind {
    match word {
        "cm32" => RawKind::Cm32,
        _ => RawKind::Colour,
    }
}

/// The number of a code, and that of the pixel.
fn code_text(alloc: Global, code: LevelCode) -> io::Result<String> {
    let number = code.number();
    match code {
        LevelCode::NotPremultiplied(pixel) => Ok(format!(in alloc; "{number} at {pixel}")?),
        _ => Ok(number.to_string(alloc)?),
    }
}

/// Whether the drawing is written as the bytes of which it was read.
fn is_written_back(alloc: Global, drawing: &Drawing, bytes: &[u8]) -> io::Result<bool> {
    match write_level(alloc, drawing) {
        Ok(written) => Ok(written.as_slice() == bytes),
        Err(_) => Err(io::Error::from(io::ErrorKind::OutOfMemory)),
    }
}

/// Where a drawing lies, its size and its pixels or words.
fn drawing_text(alloc: Global, drawing: &Drawing) -> io::Result<String> {
    let (x0, y0, w, h) = (drawing.x0(), drawing.y0(), drawing.w(), drawing.h());
    let mut text = format!(in alloc; "at {x0} {y0} size {w} {h}")?;
    push_pixels(&mut text, alloc, drawing.bytes())?;
    Ok(text)
}

/// The drawing, where it is written back as the bytes of which it was read.
fn told_text(alloc: Global, drawing: &Drawing, bytes: &[u8]) -> io::Result<String> {
    if is_written_back(alloc, drawing, bytes)? {
        drawing_text(alloc, drawing)
    } else {
        Ok(String::from_str(alloc, "other bytes are written")?)
    }
}

fn read_text(alloc: Global, bytes: &[u8], kind: RawKind) -> io::Result<String> {
    match read_level(alloc, bytes, kind) {
        Ok(drawing) => told_text(alloc, &drawing, bytes),
        Err(LevelFault::Code(code)) => code_text(alloc, code),
        Err(LevelFault::Memory) => Err(io::Error::from(io::ErrorKind::OutOfMemory)),
    }
}

/// The drawing of a file, or its first fault: the file's name and the kind.
pub fn read_file<R: Files + AllocGlobal>(rt: &R, words: &str) -> io::Result<String> {
    let (file, kind) = words.split_once(' ').unwrap_or((words, ""));
    let bytes = fs::read(rt, file)?;
    read_text(rt.alloc(), &bytes, kind_of(kind))
}

/// The same of the front parts of a file, from no byte up to all but one.
pub fn read_cuts<R: Files + AllocGlobal>(rt: &R, words: &str) -> io::Result<String> {
    let (file, kind) = words.split_once(' ').unwrap_or((words, ""));
    let bytes = fs::read(rt, file)?;
    let mut text = String::new(rt.alloc());
    for length in 0..bytes.len() {
        if length > 0 {
            text.push(' ')?;
        }
        let told = read_text(rt.alloc(), &bytes[..length], kind_of(kind))?;
        text.push_str(told.as_str())?;
    }
    Ok(text)
}
