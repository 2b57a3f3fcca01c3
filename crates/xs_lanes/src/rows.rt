ghost use Rattle.std.specs.Prelude.{◌≡◌, ◌%◌, length};
ghost use Rattle.std.specs.Simd.Lanes.{Each1, zip2};
ghost use Rattle.xs_pixel.specs.Channels.{IsPixel};
ghost use Rattle.xs_pixel.specs.Operations.{apply_of};
ghost use Rattle.xs_pixel.specs.PixelRows.{pixels};

use crate::kernel::row;
use crate::operations::{Add, MatteIn, MatteOut, Max, Min, Mult, Over, Sub};
use xs_pixel::Op;
use xs_pixel::laws::operations_keep_pixels;

/// Writes the results of `op` on the pixels of an upper row `u` and a lower row `d`. A row is four
/// bytes for each pixel, and all three are equally long.
pub fn op_row(op: Op, u: &[u8], d: &[u8], to: &mut [u8])
    requires same { length d.now ≡ length u.now }
    requires room { length to.old ≡ length u.now }
    requires whole { length u.now % 4 ≡ 0 }
    requires first { Each1 IsPixel (pixels u.now) }
    requires second { Each1 IsPixel (pixels d.now) }
    ensures value { pixels to.new ≡ zip2 (apply_of op) (pixels u.now) (pixels d.now) }
    ensures valid { Each1 IsPixel (pixels to.new) }
{
    operations_keep_pixels();
    by_kernel(op, u, d, to, true);
}

/// Does a row by the kernel of the operation, by blocks or one pixel after another.
pub(crate) fn by_kernel(op: Op, u: &[u8], d: &[u8], to: &mut [u8], by_blocks: bool)
    requires same { length d.now ≡ length u.now }
    requires room { length to.old ≡ length u.now }
    requires whole { length u.now % 4 ≡ 0 }
    requires first { Each1 IsPixel (pixels u.now) }
    requires second { Each1 IsPixel (pixels d.now) }
    ensures { pixels to.new ≡ zip2 (apply_of op) (pixels u.now) (pixels d.now) }
{
    match op {
        Op::Over => row::<Over>(u, d, to, by_blocks),
        Op::Add => row::<Add>(u, d, to, by_blocks),
        Op::Sub => row::<Sub>(u, d, to, by_blocks),
        Op::Mult => row::<Mult>(u, d, to, by_blocks),
        Op::Min => row::<Min>(u, d, to, by_blocks),
        Op::Max => row::<Max>(u, d, to, by_blocks),
        Op::MatteIn => row::<MatteIn>(u, d, to, by_blocks),
        Op::MatteOut => row::<MatteOut>(u, d, to, by_blocks),
    }
}
