//! The drawings that a row needs, where much is shared.

use std::alloc::{AllocError, Global};
use std::io;
use std::rt::Clock;
use std::time::Instant;
use xs_check::{GoodScene, check};
use xs_needs::row_drawings;
use xs_scene_json::decode;

const HEAD: &str =
    r#"{"format":1,"camera":{"w":64,"h":64},"palettes":[],"levels":[{"kind":"colour","drawings":["a","b"]}],"sheets":["#;

const CELL: &str = r#"{"cells":[{"from":1,"to":9,"level":0,"drawing":1}]}"#;

/// 256 additions, the first of column 0 and itself, each other one of the one before and itself.
fn add_additions(alloc: Global, text: &mut String) -> Result<(), AllocError> {
    text.push_str(
        r#""out":[{"node":255}],"nodes":[{"op":"add","first":{"column":0},"second":{"column":0}}"#,
    )?;
    for number in 0..255u32 {
        let node = format!(in alloc;
            ",{{\"op\":\"add\",\"first\":{{\"node\":{number}}},\"second\":{{\"node\":{number}}}}}"
        )?;
        text.push_str(node.as_str())?;
    }
    text.push(']')
}

/// A sheet of additions whose column shows the sheet with a number.
fn add_sheet_of_additions(alloc: Global, text: &mut String, shown: u32) -> Result<(), AllocError> {
    let cell = format!(in alloc;
        "{{\"columns\":[{{\"cells\":[{{\"from\":1,\"to\":9,\"sheet\":{shown},\"start\":1}}]}}],"
    )?;
    text.push_str(cell.as_str())?;
    add_additions(alloc, text)?;
    text.push_str("},")
}

/// A scene with 16 nested sheets of 256 additions.
fn additions(alloc: Global) -> Result<String, AllocError> {
    let mut text = String::from_str(alloc, HEAD)?;
    for shown in 1..16u32 {
        add_sheet_of_additions(alloc, &mut text, shown)?;
    }
    end_additions(alloc, &mut text)?;
    Ok(text)
}

/// The innermost sheet of additions, and the end of the scene.
fn end_additions(alloc: Global, text: &mut String) -> Result<(), AllocError> {
    text.push_str(r#"{"columns":["#)?;
    text.push_str(CELL)?;
    text.push_str("],")?;
    add_additions(alloc, text)?;
    text.push_str("}]}")
}

/// A sheet of eight columns, each of which shows the sheet with a number.
fn add_sheet(alloc: Global, text: &mut String, shown: u32) -> Result<(), AllocError> {
    let cell = format!(in alloc;
        "{{\"cells\":[{{\"from\":1,\"to\":9,\"sheet\":{shown},\"start\":1}}]}}"
    )?;
    text.push_str(r#"{"columns":["#)?;
    for number in 0..8u32 {
        if number > 0 {
            text.push(',')?;
        }
        text.push_str(cell.as_str())?;
    }
    text.push_str("]},")
}

/// A scene with 16 nested sheets, each of which shows the next one eight times.
fn nested(alloc: Global) -> Result<String, AllocError> {
    let mut text = String::from_str(alloc, HEAD)?;
    for shown in 1..16u32 {
        add_sheet(alloc, &mut text, shown)?;
    }
    text.push_str(r#"{"columns":["#)?;
    text.push_str(CELL)?;
    text.push_str("]}]}")?;
    Ok(text)
}

/// The scene that a text says, checked.
pub fn good_scene(alloc: Global, text: &str) -> io::Result<GoodScene> {
    let Ok(scene) = decode(alloc, text.as_bytes()) else {
        return Err(io::Error::from(io::ErrorKind::InvalidData));
    };
    match check(alloc, scene) {
        Ok(good) => Ok(good),
        Err(_) => Err(io::Error::from(io::ErrorKind::InvalidInput)),
    }
}

/// How many drawings the first row of a scene needs.
fn count_needed(alloc: Global, good: &GoodScene) -> io::Result<usize> {
    match row_drawings(alloc, good, 1) {
        Ok(drawings) => Ok(drawings.len()),
        Err(_) => Err(io::Error::from(io::ErrorKind::OutOfMemory)),
    }
}

/// Prints how long it takes to tell the drawings of the first row of a scene.
fn time_row(
    rt: &(impl Print + Clock),
    alloc: Global,
    part: &str,
    good: &GoodScene,
) -> io::Result<()> {
    let start = Instant::now(rt)?;
    let needed = count_needed(alloc, good)?;
    let micros = start.elapsed(rt)?.as_micros();
    println!(rt; "needs {part}: {needed} drawings in {micros} microseconds")
}

/// The same for the scene that a text says.
fn time_one(rt: &(impl Print + Clock), alloc: Global, part: &str, text: &str) -> io::Result<()> {
    let good = good_scene(alloc, text)?;
    time_row(rt, alloc, part, &good)
}

fn time_additions(rt: &(impl Print + Clock), alloc: Global) -> io::Result<()> {
    let text = additions(alloc)?;
    time_one(rt, alloc, "additions", text.as_str())
}

fn time_nested(rt: &(impl Print + Clock), alloc: Global) -> io::Result<()> {
    let text = nested(alloc)?;
    time_one(rt, alloc, "nested sheets", text.as_str())
}

/// Prints how long it takes where additions share their inputs, and where nested sheets do.
pub fn time_needs(rt: &(impl Print + Clock), alloc: Global) -> io::Result<()> {
    time_additions(rt, alloc)?;
    time_nested(rt, alloc)
}
