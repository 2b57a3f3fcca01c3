ghost use Rattle.std.specs.Prelude.{◌≡◌, ℕ, ◌*◌, ◌<◌, ◌≤◌, false, length, slice_index, drop, IfSome, IsTrue};
ghost use Rattle.std.specs.List.{position_from};
ghost use Rattle.std.specs.Simd.Lanes.{Each1};
ghost use Rattle.xs_pixel.specs.Channels.{channels};
ghost use Rattle.xs_pixel.specs.PixelRows.{pixels};
ghost use Rattle.xs_rawfile.specs.Pixels.{exceeds, first_unmultiplied_of};

use std::simd::prelude::*;
use xs_pixel::laws::rows_of_bytes_are_rows_of_pixels;
use xs_pixel::mattes;

/// The number of the first pixel of which a colour exceeds the matte.
pub(crate) fn first_unmultiplied(bytes: &[u8]) -> Option<usize>
    ensures first { result ≡ first_unmultiplied_of bytes.now }
    ensures bound { IfSome result (λ pixel. 4 * pixel < length bytes.now) }
{
    let mut pixel = passed_by_blocks(bytes);
    while bytes.len() - 4 * pixel >= 4 {
        if exceeds(&bytes[4 * pixel..]) {
            return Some(pixel);
        }
        pixel += 1;
    }
    None
}

/// How many pixels lie before the first block of four with a colour that exceeds its matte, or
/// before the rest that fills no block.
fn passed_by_blocks(bytes: &[u8]) -> usize
    ensures within { 4 * result ≤ length bytes.now }
    ensures passed { first_unmultiplied_of bytes.now ≡ position_from exceeds result (pixels (drop (4 * result) bytes.now)) }
{
    rows_of_bytes_are_rows_of_pixels();
    let mut pixel = 0;
    while bytes.len() - 4 * pixel >= 16 {
        if !passes(u8x16::from_slice(&bytes[4 * pixel..])) {
            return pixel;
        }
        pixel += 4;
    }
    pixel
}

/// Whether no colour of four pixels exceeds its matte.
#[inline(always)]
fn passes(block: u8x16) -> bool
    ensures { IsTrue result → Each1 (λ p. exceeds p ≡ false) (pixels block) }
{
    block.simd_gt(mattes(block)).to_bitmask() == 0
}

/// Whether a colour of the first pixel exceeds its matte.
fn exceeds(bytes: &[u8]) -> bool
    requires { 4 ≤ length bytes.now }
    ensures { result ≡ exceeds (channels (slice_index bytes.now 0) (slice_index bytes.now 1) (slice_index bytes.now 2) (slice_index bytes.now 3)) }
{
    let m = bytes[3];
    !(bytes[0] <= m && bytes[1] <= m && bytes[2] <= m)
}
