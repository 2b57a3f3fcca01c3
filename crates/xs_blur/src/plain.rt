ghost use Rattle.std.specs.Prelude.{◌≡◌, ◌≤◌, ◌*◌, ◌+◌, ◌^◌, pos, neg_ℤ, ◌+ℤ◌, ◌-ℤ◌, ◌≤ℤ◌};
ghost use Rattle.xs_base.specs.declared.limits.TheConstants.{GREATEST_RADIUS};
ghost use Rattle.xs_pixel.specs.Images.{blurred};
ghost use Rattle.xs_pixel.specs.Points.{point};
ghost use Rattle.xs_rect.specs.Area.{IsWithin};
ghost use Rattle.xs_blur.specs.Blurs.{image_of, square_round};
ghost use Rattle.xs_blur.specs.Totals.{AreParts};

use crate::divisor::Divisor;
use crate::sums::ChannelSums;
use xs_pixel::Pixel;
use xs_raster::Raster;

/// The mean of the pixels of a square, of which (x, y) is the middle and `n` pixels lie on each side of it.
/// Takes no memory.
pub fn blur_plain(input: &Raster, n: u32, x: i32, y: i32) -> Pixel
    requires radius { n ≤ GREATEST_RADIUS }
    requires there { IsWithin (square_round x y n) input.now.area }
    ensures { result ≡ blurred n (image_of input.now) (point x y) }
{
    // all of its pixels are premultiplied
    input.rect();
    let side = 2 * n + 1;
    let mut sums = ChannelSums::NONE;
    for row in 0..side {
        sums = with_line(sums, input, n, x, y, row);
    }
    sums.means(Divisor::new(side * side))
}

/// With the pixels of one more row of the square.
fn with_line(sums: ChannelSums, input: &Raster, n: u32, x: i32, y: i32, row: u32) -> ChannelSums
    requires radius { n ≤ GREATEST_RADIUS }
    requires there { IsWithin (square_round x y n) input.now.area }
    requires row { row ≤ 2 * n }
    requires before { AreParts (image_of input.now) (point x y) n row 0 sums }
    ensures { AreParts (image_of input.now) (point x y) n (row + 1) 0 result }
{
    // the rectangle is near the origin
    let rect = input.rect();
    let (_near_x, _near_y) = (rect.x(), rect.y());
    let (_w, _h) = (rect.w(), rect.h());
    let mut sums = sums;
    let at_y = round(y, n, row);
    for column in 0..2 * n + 1 {
        let at_x = round(x, n, column);
        let pixel = input.pixel(at_x, at_y);
        sums = sums.plus(pixel);
    }
    sums
}

/// The place with number `k` of the `2 n + 1` places round a place, which is near the origin.
fn round(middle: i32, n: u32, k: u32) -> i32
    requires near { (neg_ℤ (pos (2 ^ 28)) ≤ℤ middle) × (middle ≤ℤ pos (2 ^ 28)) }
    requires radius { n ≤ GREATEST_RADIUS }
    requires number { k ≤ 2 * n }
    ensures { result ≡ (middle -ℤ pos n) +ℤ pos k }
{
    middle - n as i32 + k as i32
}
