//! The text of a scene as a studio's script writes it: shots like that of the sample walk, one after another.

use std::alloc::{AllocError, Global};

/// How a text is laid out.
#[derive(Clone, Copy)]
pub enum Layout {
    /// Each member and each element on a line of its own, two blanks further in at each level.
    Indented,
    /// All on one line, with a blank after each comma and each colon.
    OneLine,
}

/// A palette of twelve styles.
const PALETTE: &str =
    "[[46,30,48,255],[214,92,64,255],[196,78,56,255],[250,214,178,255],[64,168,160,255],[74,92,150,255],[236,226,206,255],[70,76,118,255],[120,72,52,255],[240,160,132,255],[255,255,255,255],[46,30,48,255]]";

/// A level of twelve drawings.
const LEVEL: &str =
    r#"{"kind":"cm32","palette":0,"drawings":["leg.0001.xrl","leg.0002.xrl","leg.0003.xrl","leg.0004.xrl","leg.0005.xrl","leg.0006.xrl","leg.0007.xrl","leg.0008.xrl","leg.0009.xrl","leg.0010.xrl","leg.0011.xrl","leg.0012.xrl"]}"#;

const PEG: &str = r#"{"keys":["#;

const PEG_KEY: &str = r#"{"row":11,"x":0,"y":3}"#;

const COLUMN: &str = r#"{"peg":1,"cells":["#;

const CELL: &str = r#"{"from":11,"to":12,"level":4,"drawing":5}"#;

/// What ends a sheet behind its columns: nodes, and what is rendered of them.
const NODES: &str =
    r#"],"nodes":[{"op":"card","rgba":[168,150,190,255]},{"op":"mult","first":{"column":1},"second":{"node":0}},{"op":"mult","first":{"column":3},"second":{"node":0}}],"out":[{"node":0},{"node":1},{"node":2}]}"#;

/// Writes what is in front, so many copies of a piece with commas between them, and what is behind.
fn push_copies(
    text: &mut String,
    front: &str,
    (piece, count): (&str, usize),
    behind: &str,
) -> Result<(), AllocError> {
    text.push_str(front)?;
    for copy in 0..count {
        if copy > 0 {
            text.push(',')?;
        }
        text.push_str(piece)?;
    }
    text.push_str(behind)
}

/// A peg or a column, which begins like this, with so many keys or cells.
fn list_of(alloc: Global, front: &str, piece: &str, count: usize) -> Result<String, AllocError> {
    let mut text = String::new(alloc);
    push_copies(&mut text, front, (piece, count), "]}")?;
    Ok(text)
}

/// Writes the pegs of a sheet: one that moves and two that hardly do.
fn push_pegs(text: &mut String, alloc: Global) -> Result<(), AllocError> {
    let moving = list_of(alloc, PEG, PEG_KEY, 12)?;
    let still = list_of(alloc, PEG, PEG_KEY, 2)?;
    push_copies(text, r#"{"pegs":["#, (moving.as_str(), 1), ",")?;
    push_copies(text, "", (still.as_str(), 2), "],")
}

/// Writes the columns of a sheet: five of moving drawings and four of still ones.
fn push_columns(text: &mut String, alloc: Global) -> Result<(), AllocError> {
    let moving = list_of(alloc, COLUMN, CELL, 12)?;
    let still = list_of(alloc, COLUMN, CELL, 1)?;
    push_copies(text, r#""columns":["#, (moving.as_str(), 5), ",")?;
    push_copies(text, "", (still.as_str(), 4), NODES)
}

/// A sheet: pegs, columns, nodes and what is rendered of them.
fn sheet(alloc: Global) -> Result<String, AllocError> {
    let mut text = String::new(alloc);
    push_pegs(&mut text, alloc)?;
    push_columns(&mut text, alloc)?;
    Ok(text)
}

/// The text of so many shots, each with a palette, a level and a sheet, without a blank.
fn shots(alloc: Global, count: usize) -> Result<String, AllocError> {
    let sheet = sheet(alloc)?;
    let mut text = String::from_str(alloc, r#"{"format":2,"camera":{"w":320,"h":180},"#)?;
    push_copies(&mut text, r#""palettes":["#, (PALETTE, count), "],")?;
    push_copies(&mut text, r#""levels":["#, (LEVEL, count), "],")?;
    push_copies(&mut text, r#""sheets":["#, (sheet.as_str(), count), "]}")?;
    Ok(text)
}

/// Begins a line, where the layout has lines.
fn begin_line(text: &mut String, layout: Layout, depth: u32) -> Result<(), AllocError> {
    if let Layout::OneLine = layout {
        return Ok(());
    }
    text.push('\n')?;
    for _ in 0..depth {
        text.push_str("  ")?;
    }
    Ok(())
}

/// Writes what stands after a comma.
fn separate(text: &mut String, layout: Layout, depth: u32) -> Result<(), AllocError> {
    match layout {
        Layout::Indented => begin_line(text, layout, depth),
        Layout::OneLine => text.push(' '),
    }
}

/// Writes a character in its layout, and tells how deep the next one stands.
fn lay_out(text: &mut String, layout: Layout, depth: u32, c: char) -> Result<u32, AllocError> {
    let deeper = depth.saturating_add(1);
    let outer = depth.saturating_sub(1);
    if c == '}' || c == ']' {
        begin_line(text, layout, outer)?;
    }
    text.push(c)?;
    match c {
        '{' | '[' => begin_line(text, layout, deeper)?,
        ',' => separate(text, layout, depth)?,
        ':' => text.push(' ')?,
        _ => {}
    }
    match c {
        '{' | '[' => Ok(deeper),
        '}' | ']' => Ok(outer),
        _ => Ok(depth),
    }
}

/// A text in its layout. None of its strings has a bracket, a comma or a colon, and none of its lists is
/// empty.
fn laid_out(alloc: Global, layout: Layout, bare: &str) -> Result<String, AllocError> {
    let mut text = String::new(alloc);
    let mut depth = 0;
    for c in bare.chars() {
        depth = lay_out(&mut text, layout, depth, c)?;
    }
    Ok(text)
}

/// The text of so many shots in its layout.
fn shots_in(alloc: Global, layout: Layout, count: usize) -> Result<String, AllocError> {
    let bare = shots(alloc, count)?;
    laid_out(alloc, layout, bare.as_str())
}

/// A text of about so many bytes.
pub fn script_text(alloc: Global, layout: Layout, size: usize) -> Result<String, AllocError> {
    let one = shots_in(alloc, layout, 1)?.len();
    let count = size.checked_div(one).unwrap_or(1);
    shots_in(alloc, layout, count)
}
