ghost use Rattle.std.specs.Prelude.{◌≡◌, ◌+◌, ◌/◌, ◌%◌, length, replicate};
ghost use Rattle.std.specs.Simd.Lanes.{Each1};
ghost use Rattle.xs_pixel.specs.Channels.{IsPixel};
ghost use Rattle.xs_pixel.specs.PixelRows.{pixels};
ghost use Rattle.xs_lanes.specs.Done.{Done};

use std::simd::prelude::*;
use xs_pixel::Pixel;

/// Four times a pixel.
fn spread(p: Pixel) -> u8x16
    ensures long { length result ≡ 16 }
    ensures value { pixels result ≡ replicate 4 p }
    ensures valid { IsPixel p }
{
    u8x4::from_array(p.to_bytes()).swizzle([0, 1, 2, 3, 0, 1, 2, 3, 0, 1, 2, 3, 0, 1, 2, 3])
}

/// Fills as many pixels as make whole blocks, and returns the place of the first byte that is left.
fn blocks(p: Pixel, to: &mut [u8]) -> usize
    requires { length to.old % 4 ≡ 0 }
    ensures done { Done (replicate (length to.old / 4) p) to.new result }
    ensures valid { IsPixel p }
{
    let block = spread(p);
    let mut at = 0;
    while to.len() - at >= 16 {
        block.copy_to_slice(&mut to[at..]);
        at += 16;
    }
    at
}

/// Fills the pixels from a place on, one after another.
pub(crate) fn rest(p: Pixel, to: &mut [u8], from: usize)
    requires whole { length to.old % 4 ≡ 0 }
    requires so_far { Done (replicate (length to.old / 4) p) to.old from }
    ensures { pixels to.new ≡ replicate (length to.old / 4) p }
{
    let pixel = u8x4::from_array(p.to_bytes());
    let mut at = from;
    while at < to.len() {
        pixel.copy_to_slice(&mut to[at..]);
        at += 4;
    }
}

/// Writes one pixel over all of a row, four bytes for each.
pub fn fill_row(p: Pixel, to: &mut [u8])
    requires { length to.old % 4 ≡ 0 }
    ensures value { pixels to.new ≡ replicate (length to.old / 4) p }
    ensures valid { Each1 IsPixel (pixels to.new) }
{
    let from = blocks(p, to);
    rest(p, to, from);
}
