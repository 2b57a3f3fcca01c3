ghost use Rattle.std.specs.Prelude.{◌≡◌, ℕ, ◌≤◌, ◌<◌, ◌*◌, ◌+◌, true, length, slice_index, IfOk};
ghost use Rattle.xs_base.specs.declared.limits.TheConstants.{GREATEST_RADIUS};
ghost use Rattle.xs_rect.specs.Area.{grown};
ghost use Rattle.xs_blur.specs.Blurs.{Blurs};
ghost use Rattle.xs_blur.specs.Totals.{AreColumns};

use crate::columns::{with_row, without_row};
use crate::divisor::Divisor;
use crate::line::put_line;
use std::alloc::Global;
use xs_base::Memory;
use xs_pixel::laws::rows_of_bytes_are_rows_of_pixels;
use xs_raster::Raster;
use xs_rect::Rect;

/// The blur of a raster: each pixel is the mean of the square of side `2 n + 1` round it, each channel rounded
/// down. The input has `n` more pixels on each side. The blur of one without bytes has none and takes no
/// memory. The sums of columns are kept from row to row, and those of squares from pixel to pixel.
pub fn blur(alloc: Global, input: &Raster, n: u32, rect: Rect) -> Result<Raster, Memory>
    requires radius { n ≤ GREATEST_RADIUS }
    requires there { input.now.area ≡ grown rect n }
    ensures area { IfOk result (λ r. r.area ≡ rect) }
    ensures blurs { IfOk result (Blurs n input.now) }
{
    let all = input.rect();
    if !input.has_bytes() {
        return Ok(Raster::blank(alloc, rect));
    }
    let mut result = Raster::clear(alloc, rect)?;
    let mut columns = vec![in alloc; 0u16; 4 * all.w() as usize]?;
    let mut line = vec![in alloc; 0u8; 4 * rect.w() as usize]?;
    put_lines(&mut result, input, n, &mut columns, &mut line);
    Ok(result)
}

/// Puts the lines of the blur of a raster, with memory for the sums of columns, which are 0 at first, and for a
/// line.
fn put_lines(to: &mut Raster, input: &Raster, n: u32, columns: &mut [u16], line: &mut [u8])
    requires radius { n ≤ GREATEST_RADIUS }
    requires there { input.now.area ≡ grown to.old.area n }
    requires room { to.old.has_bytes ≡ true }
    requires bytes { input.now.has_bytes ≡ true }
    requires wide { length columns.old ≡ 4 * input.now.area.w }
    requires none { (c : ℕ) → c < length columns.old → slice_index columns.old c ≡ 0 }
    requires line { length line.old ≡ 4 * to.old.area.w }
    ensures area { to.new.area ≡ to.old.area }
    ensures blurs { Blurs n input.now to.new }
{
    rows_of_bytes_are_rows_of_pixels();
    input.rect();
    let rect = to.rect();
    let bytes = input.bytes();
    let side = 2 * n + 1;
    let count = Divisor::new(side * side);
    first_rows(columns, bytes, 2 * n);
    for y in 0..rect.h() {
        with_row(columns, bytes, y, 2 * n);
        put_line(columns, side, count, line);
        to.put_row(rect.x(), rect.y() + y as i32, line);
        without_row(columns, bytes, y, 2 * n);
    }
}

/// Adds the first `k` rows to sums that are 0.
fn first_rows(columns: &mut [u16], bytes: &[u8], k: u32)
    requires few { k ≤ 32 }
    requires there { length columns.old * k ≤ length bytes.now }
    requires none { (c : ℕ) → c < length columns.old → slice_index columns.old c ≡ 0 }
    ensures { AreColumns columns.new bytes.now (length columns.old) 0 k }
{
    for row in 0..k {
        with_row(columns, bytes, 0, row);
    }
}
