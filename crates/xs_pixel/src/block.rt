//! Blocks of four pixels, four lanes for each.

ghost use Rattle.std.specs.Prelude.{◌≡◌, length};
ghost use Rattle.xs_pixel.specs.PixelRows.{mattes_of};

use std::simd::prelude::*;

/// The matte of each of four pixels in all four of its lanes.
#[inline(always)]
pub fn mattes(block: u8x16) -> u8x16
    ensures long { length result ≡ 16 }
    ensures value { result ≡ mattes_of block }
{
    block.swizzle([3, 3, 3, 3, 7, 7, 7, 7, 11, 11, 11, 11, 15, 15, 15, 15])
}
