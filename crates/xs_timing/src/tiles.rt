//! Tiles of pixels and of words, in an order that looks random and is the same in each run.

ghost use Rattle.std.specs.Prelude.{◌≡◌, ◌*◌, ◌%◌, length, vec_len, IfOk};
ghost use Rattle.std.specs.Simd.Lanes.{Each1};
ghost use Rattle.xs_pixel.specs.Channels.{IsPixel};
ghost use Rattle.xs_pixel.specs.PixelRows.{pixels};

use std::alloc::{AllocError, Global};
use std::io;
use xs_palette::Palette;
use xs_pixel::Style;

/// The pixels of a tile.
pub const PIXELS: u32 = 64 * 64;

/// What the upper pixels are like.
#[derive(Clone, Copy, Debug, PartialEq, Eq)]
pub enum Kind {
    Noise,
    Opaque,
    Clear,
}

/// Numbers that look random.
#[derive(Debug, Drop)]
pub struct Random {
    state: u32,
}

impl Random {
    /// The numbers of a seed; an even seed is taken for the next odd one.
    pub fn new(seed: u32) -> Random {
        Random { state: seed | 1 }
    }

    /// The next number, by three shifts.
    pub fn next(&mut self) -> u32 {
        self.state ^= self.state << 13;
        self.state ^= self.state >> 17;
        self.state ^= self.state << 5;
        self.state
    }
}

fn style(random: &mut Random, kind: Kind) -> Style {
    let [r, g, b, matte] = random.next().to_le_bytes();
    let a = match kind {
        Kind::Noise => matte,
        Kind::Opaque => 255,
        Kind::Clear => 0,
    };
    Style { r, g, b, a }
}

/// A palette with the most styles there may be.
pub fn palette(alloc: Global, random: &mut Random, kind: Kind) -> io::Result<Palette> {
    let mut styles = Vec::new(alloc);
    for _ in 0..4096 {
        styles.push(style(random, kind))?;
    }
    Palette::from_styles(alloc, &styles).map_err(|_fault| io::Error::from(
        io::ErrorKind::OutOfMemory,
    ))
}

/// The words of a tile, each so many times. None names style 0.
pub fn words(alloc: Global, random: &mut Random, times: u32) -> Result<Vec<u8>, AllocError>
    ensures { IfOk result (λ v. vec_len v ≡ 4 * PIXELS) }
{
    let mut row = Vec::new(alloc);
    let mut word = random.next() | 0x0010_0100;
    let mut left = times;
    for _done in 0..PIXELS {
        if left == 0 {
            word = random.next() | 0x0010_0100;
            left = times;
        }
        left = left.saturating_sub(1);
        row.extend_from_slice(&word.to_le_bytes())?;
    }
    Ok(row)
}

/// The pixels of words.
pub fn coloured(alloc: Global, palette: &Palette, row: &[u8]) -> Result<Vec<u8>, AllocError>
    requires { length row.now % 4 ≡ 0 }
    ensures long { IfOk result (λ v. vec_len v ≡ length row.now) }
    ensures valid { IfOk result (λ v. Each1 IsPixel (pixels v.items)) }
{
    let mut pixels = vec![in alloc; 0u8; row.len()]?;
    xs_lanes::cm32_row(row, palette, &mut pixels);
    Ok(pixels)
}

/// A tile of pixels.
pub fn tile(alloc: Global, random: &mut Random, palette: &Palette) -> Result<Vec<u8>, AllocError>
    ensures long { IfOk result (λ v. vec_len v ≡ 4 * PIXELS) }
    ensures valid { IfOk result (λ v. Each1 IsPixel (pixels v.items)) }
{
    let row = words(alloc, random, 1)?;
    coloured(alloc, palette, &row)
}
