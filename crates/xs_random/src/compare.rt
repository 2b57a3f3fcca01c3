use crate::failure::Failure;
use crate::files::Stock;
use crate::kind::Kind;
use crate::random::Random;
use crate::render::{SCENE, render};
use crate::rows::Rows;
use crate::scene::scene;
use std::alloc::Global;
use std::fmt;
use std::marker::Brand;
use xs_check::{GoodScene, check};
use xs_direct::frame_direct;
use xs_fault::FieldFault;
use xs_outside::Object;
use xs_rawfile::Drawings;
use xs_scene_json::encode;

/// What came of a scene.
#[derive(Clone, Copy)]
pub enum Found {
    /// Checking refused it.
    Refused,
    /// Its render ended with this status.
    Ended(u8),
    /// So many frames stood on the shelf, not one for each row.
    Count(u32),
    /// The frame of this row is not that of the plain evaluator.
    Differs(u32),
    /// All frames are: how many there are, and how many of them are clear everywhere.
    Equal { frames: u32, clear: u32 },
}

impl fmt::Display for Found {
    fn fmt<W: fmt::Write>(&self, f: &mut fmt::Formatter<W>) -> fmt::Result {
        match self {
            Found::Refused => f.write_str("the scene is refused"),
            Found::Ended(status) => write!(f, "the render ended with status {status}"),
            Found::Count(frames) => write!(f, "there are {frames} frames"),
            Found::Differs(row) => write!(f, "the frame of row {row} differs"),
            Found::Equal { frames, clear: _ } => write!(f, "{frames} frames are equal"),
        }
    }
}

/// Whether a frame has no pixel that shows.
fn is_clear(frame: &Object) -> bool {
    frame.bytes.items().iter().skip(12).all(|&byte| byte == 0)
}

/// Compares frames of the rows from this one on with the plain evaluator's.
fn compare_frames(
    alloc: Global,
    good: &GoodScene,
    drawings: &Drawings<Brand>,
    from: u32,
    frames: &[Object],
) -> Result<Found, Failure> {
    let mut row = from;
    let mut clear = 0u32;
    for frame in frames {
        let plain = frame_direct(alloc, good, drawings, row)?;
        if frame.bytes.items() != plain.as_slice() {
            return Ok(Found::Differs(row));
        }
        clear = clear.saturating_add(u32::from(is_clear(frame)));
        row = row.saturating_add(1);
    }
    Ok(Found::Equal {
        frames: row.saturating_sub(from),
        clear,
    })
}

/// Renders rows of a scene and compares their frames.
fn compare_rows(
    alloc: Global,
    random: &mut Random,
    good: &GoodScene,
    stock: Stock,
    rows: Rows,
) -> Result<Found, Failure> {
    let (mut files, drawings) = stock.into_parts();
    let text = encode(alloc, good.scene())?;
    files.push(Object::new(alloc, SCENE, text.as_slice())?)?;
    let (status, shelf) = render(alloc, random, files, rows)?;
    if status != 0 {
        return Ok(Found::Ended(status));
    }
    let frames = shelf.objects();
    if frames.len() != rows.count() as usize {
        return Ok(Found::Count(frames.len().min(9999) as u32));
    }
    compare_frames(alloc, good, &drawings, rows.from, frames)
}

/// Draws a scene of a kind, renders rows of it and compares their frames.
pub fn compare(alloc: Global, random: &mut Random, kind: &Kind) -> Result<Found, Failure> {
    let scene = scene(alloc, random, kind)?;
    let good = match check(alloc, scene) {
        Ok(good) => good,
        Err(FieldFault::Fault(_)) => return Ok(Found::Refused),
        Err(FieldFault::Memory) => return Err(Failure::Memory),
    };
    let stock = Stock::draw(alloc, random, good.scene())?;
    let rows = Rows::new(random);
    compare_rows(alloc, random, &good, stock, rows)
}
