//! The rows of an area in a list of bytes: where a point lies, and what is put there.

ghost use Rattle.std.specs.Prelude.{◌≡◌, ◌+◌, ◌*◌, ◌/◌, ◌%◌, ◌≤◌, length, replicate};
ghost use Rattle.std.specs.Simd.Lanes.{Each1, chunk, put_chunk};
ghost use Rattle.xs_pixel.specs.Channels.{IsPixel};
ghost use Rattle.xs_pixel.specs.PixelRows.{pixels};
ghost use Rattle.xs_rect.specs.Area.{IsPart, IsWithin, Lies};
ghost use Rattle.xs_raster.specs.Bitmap.{bitmap, place_of, part_of};
ghost use Rattle.xs_raster.specs.Changes.{SetsRow, Pastes};

use crate::raster::{LONGEST_BLANK_SIDE, Raster};
use crate::tile::Tile;
use xs_pixel::laws::rows_of_bytes_are_rows_of_pixels;
use xs_rect::Rect;

/// The bytes of a clear row of the greatest length.
static CLEAR_ROW: [u8; 768] = [0; 768];

/// Sets the points that an area and the tile have in common to the tile's pixels. The bytes are those of
/// the area's pixels: four for each, in rows from the lowest up and each from left to right. Takes no memory.
pub fn paste_into(bytes: &mut [u8], rect: Rect, t: &Tile)
    requires { length bytes.old ≡ 4 * (rect.w * rect.h) }
    ensures points { Pastes (bitmap rect (pixels bytes.old)) (bitmap rect (pixels bytes.new)) t.now.raster }
    ensures premultiplied { Each1 IsPixel (pixels bytes.old) → Each1 IsPixel (pixels bytes.new) }
{
    let from = t.raster();
    let Some(common) = rect.clip(&from.rect()) else {
        return;
    };
    for i in 0..common.h() {
        paste_line(bytes, rect, from, common, common.y() + i as i32);
    }
}

/// Sets a row of the common area to the pixels of the raster.
fn paste_line(bytes: &mut [u8], rect: Rect, from: &Raster, common: Rect, y: i32)
    requires whole { length bytes.old ≡ 4 * (rect.w * rect.h) }
    requires up { Lies common.y common.h y }
    requires mine { IsWithin common rect }
    requires its { IsWithin common from.now.area }
    ensures long { length (part_of from.now common y) ≡ common.w }
    ensures row { SetsRow (bitmap rect (pixels bytes.old)) (bitmap rect (pixels bytes.new)) common.x y (part_of from.now common y) }
    ensures premultiplied { Each1 IsPixel (pixels bytes.old) → Each1 IsPixel (pixels bytes.new) }
{
    put_line(
        bytes,
        rect,
        common.x(),
        y,
        from.part(common.x(), y, common.w()),
    );
}

/// Sets the pixels from the point (x, y) of an area to the right to those of the row.
pub(crate) fn put_line(bytes: &mut [u8], rect: Rect, x: i32, y: i32, row: &[u8])
    requires pixels_of_row { length row.now % 4 ≡ 0 }
    requires whole { length bytes.old ≡ 4 * (rect.w * rect.h) }
    requires across { IsPart x (length row.now / 4) rect.x rect.w }
    requires up { Lies rect.y rect.h y }
    ensures list { pixels bytes.new ≡ put_chunk (place_of rect x y) (pixels bytes.old) (pixels row.now) }
    ensures points { SetsRow (bitmap rect (pixels bytes.old)) (bitmap rect (pixels bytes.new)) x y (pixels row.now) }
    ensures premultiplied { Each1 IsPixel (pixels bytes.old) → Each1 IsPixel (pixels row.now) → Each1 IsPixel (pixels bytes.new) }
{
    rows_of_bytes_are_rows_of_pixels();
    let at = place(rect, x, y);
    put_pixels(bytes, at, row);
}

/// How many pixels of an area come before the point (x, y), which may also be one past the end of a row.
pub(crate) fn place(rect: Rect, x: i32, y: i32) -> usize
    requires across { IsPart x 0 rect.x rect.w }
    requires up { Lies rect.y rect.h y }
    ensures value { result ≡ place_of rect x y }
    ensures bound { result ≤ rect.w * rect.h }
{
    let rows = y.abs_diff(rect.y()) as usize;
    let columns = x.abs_diff(rect.x()) as usize;
    rows * rect.w() as usize + columns
}

/// The bytes of `n` pixels from the one with number `at` on.
pub(crate) fn pixels_from(bytes: &[u8], at: usize, n: usize) -> &[u8]
    requires { 4 * (at + n) ≤ length bytes.now }
    ensures bytes { result.now ≡ chunk (4 * at) (4 * n) bytes.now }
    ensures pixels { pixels result.now ≡ chunk at n (pixels bytes.now) }
    ensures count { length (pixels result.now) ≡ n }
    ensures whole { length result.now ≡ 4 * n }
{
    rows_of_bytes_are_rows_of_pixels();
    &bytes[4 * at..4 * (at + n)]
}

/// The bytes of `n` clear pixels.
pub(crate) fn clear_row(n: usize) -> &'static [u8]
    requires { n ≤ LONGEST_BLANK_SIDE }
    ensures { result.now ≡ replicate (4 * n) 0 }
{
    &CLEAR_ROW[..4 * n]
}

/// Puts the pixels of a row in place of those from the one with number `at` on.
fn put_pixels(bytes: &mut [u8], at: usize, row: &[u8])
    requires whole { length row.now % 4 ≡ 0 }
    requires room { 4 * at + length row.now ≤ length bytes.old }
    ensures { pixels bytes.new ≡ put_chunk at (pixels bytes.old) (pixels row.now) }
{
    rows_of_bytes_are_rows_of_pixels();
    bytes[4 * at..4 * at + row.len()].copy_from_slice(row);
}
