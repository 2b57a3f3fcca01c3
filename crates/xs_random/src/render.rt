use crate::failure::Failure;
use crate::random::Random;
use crate::rows::Rows;
use std::alloc::Global;
use xs_outside::{MemLibrary, MemNotes, MemShelf, Object};
use xs_top::{lane_benches, run, status_number};

/// The name of the file of a scene.
pub const SCENE: &str = "scene.json";

/// The words that render rows of the scene, by any number of workers.
fn words(alloc: Global, random: &mut Random, rows: Rows) -> Result<Vec<String>, Failure> {
    let (from, to, workers) = (rows.from, rows.to, random.from_to(1, 64));
    let line = format!(in alloc; "render {SCENE} {from} {to} {workers} f")?;
    let mut words = Vec::new(alloc);
    for word in line.as_str().split_whitespace() {
        words.push(String::from_str(alloc, word)?)?;
    }
    Ok(words)
}

/// The number of the status of a render of rows over these files, and the shelf that it leaves.
pub fn render(
    alloc: Global,
    random: &mut Random,
    files: Vec<Object>,
    rows: Rows,
) -> Result<(u8, MemShelf), Failure> {
    let words = words(alloc, random, rows)?;
    let mut library = MemLibrary::new(alloc, files, Vec::new(alloc));
    let mut shelf = MemShelf::new(alloc, Vec::new(alloc));
    let mut notes = MemNotes::new(alloc, Vec::new(alloc));
    let mut benches = lane_benches(alloc)?;
    let mut end = None;
    let status = run(
        alloc,
        &words,
        &mut library,
        &mut shelf,
        &mut notes,
        &mut benches,
        &mut end,
    );
    Ok((status_number(&status), shelf))
}
