//! The same rows, one pixel after another: the yardstick of the rows by lanes.

ghost use Rattle.std.specs.Prelude.{◌≡◌, ◌/◌, ◌%◌, map, length, replicate};
ghost use Rattle.std.specs.Simd.Lanes.{Each1, zip2};
ghost use Rattle.xs_pixel.specs.Channels.{IsPixel};
ghost use Rattle.xs_pixel.specs.Operations.{apply_of};
ghost use Rattle.xs_pixel.specs.PixelRows.{pixels};
ghost use Rattle.xs_cm32.specs.WordRows.{words};
ghost use Rattle.xs_cm32.specs.Word.{colour_under};
ghost use Rattle.xs_palette.specs.Styles.{style_of};

use crate::rows::by_kernel;
use crate::{cm32, fill};
use xs_palette::Palette;
use xs_pixel::{Op, Pixel};

/// Writes the results of `op` on the pixels of an upper row `u` and a lower row `d`.
pub fn op_row(op: Op, u: &[u8], d: &[u8], to: &mut [u8])
    requires same { length d.now ≡ length u.now }
    requires room { length to.old ≡ length u.now }
    requires whole { length u.now % 4 ≡ 0 }
    requires first { Each1 IsPixel (pixels u.now) }
    requires second { Each1 IsPixel (pixels d.now) }
    ensures { pixels to.new ≡ zip2 (apply_of op) (pixels u.now) (pixels d.now) }
{
    by_kernel(op, u, d, to, false);
}

/// Writes the colours of a row of CM32 words under a palette.
pub fn cm32_row(row: &[u8], p: &Palette, to: &mut [u8])
    requires room { length to.old ≡ length row.now }
    requires whole { length row.now % 4 ≡ 0 }
    ensures { pixels to.new ≡ map (colour_under (style_of p.now)) (words row.now) }
{
    cm32::rest(row, p, to, 0);
}

/// Writes one pixel over all of a row.
pub fn fill_row(p: Pixel, to: &mut [u8])
    requires { length to.old % 4 ≡ 0 }
    ensures { pixels to.new ≡ replicate (length to.old / 4) p }
{
    fill::rest(p, to, 0);
}
