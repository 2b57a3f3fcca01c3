//! The level files of a seed.

ghost use Rattle.std.specs.Prelude.{◌≡◌, ◌<◌, ◌+◌, ◌*◌, ◌++◌, ◌^◌, IfOk, OnOk, string_bytes};
ghost use Rattle.xs_make.specs.Draws.{state_after};
ghost use Rattle.xs_make.specs.Files.{background_from, background_name, cel_file, cel_from, cel_name, file_of, files_drawn, grey_bytes, word_at, word_bytes};
ghost use Rattle.xs_rawfile.specs.Level.{level_bytes};

use crate::draws::Draws;
use std::alloc::Global;
use xs_base::{List, Memory};
use xs_outside::Object;
use xs_rawfile::{Drawing, RawKind, write_level};

/// So many grey pixels, of four bytes each.
#[tactic(auto, using(crate::proofs::Drawn::none_drawn), unfolding(crate::specs::Files::grey_bytes))]
fn grey_bytes(alloc: Global, draws: &mut Draws, pixels: u32) -> Result<Vec<u8>, Memory>
    requires { 4 * pixels < 2 ^ 32 }
    ensures bytes { IfOk result (λ v. v.items ≡ grey_bytes draws.old pixels) }
    ensures state { OnOk result (draws.new ≡ state_after draws.old pixels) }
{
    let mut bytes = Vec::with_capacity(alloc, 4 * pixels as usize)?;
    for _pixel in 0..pixels {
        let v = draws.draw(256) as u8;
        bytes.extend_from_slice(&[v, v, v, 255])?;
    }
    Ok(bytes)
}

/// The next word: its ink, its paint and its tone.
#[tactic(auto, unfolding(crate::specs::Draws::state_after))]
fn word(draws: &mut Draws) -> u32
    ensures word { result ≡ word_at draws.old 0 }
    ensures state { draws.new ≡ state_after draws.old 3 }
{
    let ink = draws.draw(8);
    let paint = draws.draw(8);
    let tone = draws.draw(256);
    ink * (1 << 20) + paint * (1 << 8) + tone
}

/// So many words, of four bytes each.
#[tactic(auto, using(crate::proofs::Drawn::none_drawn), unfolding(crate::specs::Files::word_bytes))]
fn word_bytes(alloc: Global, draws: &mut Draws, words: u32) -> Result<Vec<u8>, Memory>
    requires { 4 * words < 2 ^ 32 }
    ensures bytes { IfOk result (λ v. v.items ≡ word_bytes draws.old words) }
    ensures state { OnOk result (draws.new ≡ state_after draws.old (3 * words)) }
{
    let mut bytes = Vec::with_capacity(alloc, 4 * words as usize)?;
    for _word in 0..words {
        bytes.extend_from_slice(&word(draws).to_le_bytes())?;
    }
    Ok(bytes)
}

/// The background.
pub(crate) fn background(alloc: Global, draws: &mut Draws) -> Result<Drawing, Memory>
    ensures drawing { IfOk result (λ d. d ≡ background_from draws.old) }
    ensures state { OnOk result (draws.new ≡ state_after draws.old 24576) }
{
    let bytes = grey_bytes(alloc, draws, 192 * 128)?;
    match Drawing::new(0, 0, 192, 128, RawKind::Colour, List::of(bytes)) {
        Some(drawing) => Ok(drawing),
        None => unreachable!(),
    }
}

/// A drawing of words.
pub(crate) fn cel(alloc: Global, draws: &mut Draws) -> Result<Drawing, Memory>
    ensures drawing { IfOk result (λ d. d ≡ cel_from draws.old) }
    ensures state { OnOk result (draws.new ≡ state_after draws.old 12290) }
{
    let x0 = draws.draw(64) as i32;
    let y0 = draws.draw(32) as i32;
    let bytes = word_bytes(alloc, draws, 64 * 64)?;
    match Drawing::new(x0, y0, 64, 64, RawKind::Cm32, List::of(bytes)) {
        Some(drawing) => Ok(drawing),
        None => unreachable!(),
    }
}

/// The name of a drawing of words: its level and its place in it, each from 1 on.
pub(crate) fn cel_name(alloc: Global, m: u32) -> Result<String, Memory>
    requires { m < 12 }
    ensures { IfOk result (λ name. string_bytes name ≡ cel_name m) }
{
    let level = m / 4 + 1;
    let place = m % 4 + 1;
    Ok(format!(in alloc; "c{level}.000{place}.xrl")?)
}

/// The file of a drawing.
pub(crate) fn file(alloc: Global, name: &str, drawing: &Drawing) -> Result<Object, Memory>
    ensures { IfOk result (λ object. object ≡ file_of name.now drawing.now) }
{
    let bytes = write_level(alloc, drawing)?;
    Ok(Object {
        name: List::of(Vec::from_slice(alloc, name.as_bytes())?),
        bytes: List::of(bytes),
    })
}

/// The files: the background, and the drawings of words level by level.
pub(crate) fn files(alloc: Global, draws: &mut Draws) -> Result<Vec<Object>, Memory>
    ensures files { IfOk result (λ v. v.items ≡ files_drawn draws.old) }
    ensures state { OnOk result (draws.new ≡ state_after draws.old (24576 + 12290 * 12)) }
{
    let mut files = Vec::new(alloc);
    let drawing = background(alloc, draws)?;
    files.push(file(alloc, "bg.xrl", &drawing)?)?;
    for m in 0..12 {
        let drawing = cel(alloc, draws)?;
        let name = cel_name(alloc, m)?;
        files.push(file(alloc, name.as_str(), &drawing)?)?;
    }
    Ok(files)
}
