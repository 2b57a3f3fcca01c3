//! Reading and writing scene texts.

use crate::script::{Layout, script_text};
use std::alloc::{AllocError, Global};
use std::io;
use std::rt::Clock;
use std::time::Instant;
use xs_scene::Scene;
use xs_scene_json::{decode, encode};

/// A scene text of about so many bytes, without a blank: one column of cells.
fn bare_text(alloc: Global, size: usize) -> Result<String, AllocError> {
    let mut text = String::from_str(
        alloc,
        r#"{"format":1,"camera":{"w":1920,"h":1080},"palettes":[],"levels":[],"sheets":[{"columns":[{"cells":["#,
    )?;
    let cell = r#"{"from":1,"to":9,"level":0,"drawing":7}"#;
    text.push_str(cell)?;
    for _ in 0..u32::MAX {
        if text.len() >= size {
            break;
        }
        text.push(',')?;
        text.push_str(cell)?;
    }
    text.push_str("]}]}]}")?;
    Ok(text)
}

fn scene_of(alloc: Global, text: &str) -> io::Result<Scene> {
    match decode(alloc, text.as_bytes()) {
        Ok(scene) => Ok(scene),
        Err(_) => Err(io::Error::from(io::ErrorKind::OutOfMemory)),
    }
}

fn size_of(mib: u16) -> usize {
    usize::from(mib) * 1024 * 1024
}

/// Prints how long `decode` takes on a text.
fn time_reading(
    rt: &(impl Print + Clock),
    alloc: Global,
    part: &str,
    text: &str,
) -> io::Result<()> {
    let start = Instant::now(rt)?;
    let scene = scene_of(alloc, text)?;
    let elapsed = start.elapsed(rt);
    drop(scene);
    let micros = elapsed?.as_micros();
    println!(rt; "{part} {} bytes {micros} microseconds", text.len())
}

/// Prints how long `decode` takes on bare cells of so many MiB.
pub fn time_decode(rt: &(impl Print + Clock), alloc: Global, mib: u16) -> io::Result<()> {
    let text = bare_text(alloc, size_of(mib))?;
    time_reading(rt, alloc, "decode", text.as_str())
}

/// Prints how long `decode` takes on an indented scene of so many MiB.
pub fn time_indented(rt: &(impl Print + Clock), alloc: Global, mib: u16) -> io::Result<()> {
    let text = script_text(alloc, Layout::Indented, size_of(mib))?;
    time_reading(rt, alloc, "decode-indented", text.as_str())
}

/// Prints how long `decode` takes on a scene on one line of so many MiB.
pub fn time_one_line(rt: &(impl Print + Clock), alloc: Global, mib: u16) -> io::Result<()> {
    let text = script_text(alloc, Layout::OneLine, size_of(mib))?;
    time_reading(rt, alloc, "decode-line", text.as_str())
}

/// How many bytes the text of a scene has.
fn written_size(alloc: Global, scene: &Scene) -> io::Result<usize> {
    match encode(alloc, scene) {
        Ok(bytes) => Ok(bytes.len()),
        Err(_) => Err(io::Error::from(io::ErrorKind::OutOfMemory)),
    }
}

/// Prints how long `encode` takes on a scene.
fn time_writing(rt: &(impl Print + Clock), alloc: Global, scene: &Scene) -> io::Result<()> {
    let start = Instant::now(rt)?;
    let size = written_size(alloc, scene)?;
    let micros = start.elapsed(rt)?.as_micros();
    println!(rt; "encode {size} bytes {micros} microseconds")
}

/// The scene of bare cells of so many MiB.
fn bare_scene(alloc: Global, mib: u16) -> io::Result<Scene> {
    let text = bare_text(alloc, size_of(mib))?;
    scene_of(alloc, text.as_str())
}

/// Prints how long `encode` takes on the scene of a text of so many MiB.
pub fn time_encode(rt: &(impl Print + Clock), alloc: Global, mib: u16) -> io::Result<()> {
    let scene = bare_scene(alloc, mib)?;
    time_writing(rt, alloc, &scene)
}
