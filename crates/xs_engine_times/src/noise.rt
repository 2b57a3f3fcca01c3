//! Pixels, words and palettes that look random and are the same in each run.

use crate::fault::Fault;
use std::alloc::{AllocError, Global};
use xs_palette::Palette;
use xs_pixel::Style;

/// The pixels of a tile.
pub(crate) const PIXELS: u32 = 64 * 64;

/// The styles of a palette, the most that there may be.
const STYLES: u32 = 4096;

/// Numbers that look random.
#[derive(Debug, Drop)]
pub(crate) struct Random {
    state: u32,
}

impl Random {
    /// The numbers of a seed; an even seed is taken for the next odd one.
    pub(crate) fn new(seed: u32) -> Random {
        Random { state: seed | 1 }
    }

    /// The next number, by three shifts.
    fn next(&mut self) -> u32 {
        self.state ^= self.state << 13;
        self.state ^= self.state >> 17;
        self.state ^= self.state << 5;
        self.state
    }

    /// The next style.
    fn style(&mut self) -> Style {
        let [r, g, b, a] = self.next().to_le_bytes();
        Style { r, g, b, a }
    }
}

/// A palette with the most styles.
pub(crate) fn palette(alloc: Global, random: &mut Random) -> Result<Palette, Fault> {
    let mut styles = Vec::new(alloc);
    for _style in 0..STYLES {
        styles.push(random.style())?;
    }
    match Palette::from_styles(alloc, &styles) {
        Ok(palette) => Ok(palette),
        Err(_) => Err(Fault::Memory),
    }
}

/// The bytes of so many words, of which one after another is the same so many times.
pub(crate) fn words(
    alloc: Global,
    random: &mut Random,
    count: u32,
    times: u32,
) -> Result<Vec<u8>, AllocError> {
    let mut bytes = Vec::new(alloc);
    let mut word = 0u32;
    for done in 0..count {
        if done % times.max(1) == 0 {
            word = random.next();
        }
        bytes.extend_from_slice(&word.to_le_bytes())?;
    }
    Ok(bytes)
}

/// The bytes of so many pixels.
pub(crate) fn pixels(
    alloc: Global,
    random: &mut Random,
    count: u32,
) -> Result<Vec<u8>, AllocError> {
    let mut bytes = Vec::new(alloc);
    for _pixel in 0..count {
        bytes.extend_from_slice(&random.style().pixel().to_bytes())?;
    }
    Ok(bytes)
}
