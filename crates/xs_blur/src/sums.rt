ghost use Rattle.std.specs.Prelude.{◌≡◌, ◌+◌, ◌*◌, ◌/◌, ◌<◌, ◌≤◌, [], ◌∷◌, length};
ghost use Rattle.std.specs.Simd.Lanes.{put_chunk};
ghost use Rattle.xs_pixel.specs.Channels.{IsPixel, channels};
ghost use Rattle.xs_blur.specs.Totals.{Gains, Has, IsAtMost};

use crate::divisor::Divisor;
use std::simd::prelude::*;
use xs_pixel::Pixel;

/// The sums of the channels of some pixels or columns.
#[derive(Clone, Copy)]
pub(crate) struct ChannelSums {
    pub(crate) r: u32,
    pub(crate) g: u32,
    pub(crate) b: u32,
    pub(crate) m: u32,
}

impl ChannelSums {
    /// The sums of nothing.
    pub(crate) const NONE: ChannelSums = ChannelSums {
        r: 0,
        g: 0,
        b: 0,
        m: 0,
    };

    /// With one column more: the one with this number.
    pub(crate) fn with(self, columns: &[u16], at: usize) -> ChannelSums
        requires there { 4 * at + 4 ≤ length columns.now }
        requires room { IsAtMost 1000000 self }
        ensures { Gains columns.now at self result }
    {
        ChannelSums {
            r: self.r + columns[4 * at] as u32,
            g: self.g + columns[4 * at + 1] as u32,
            b: self.b + columns[4 * at + 2] as u32,
            m: self.m + columns[4 * at + 3] as u32,
        }
    }

    /// With one column less: the one with this number.
    pub(crate) fn without(self, columns: &[u16], at: usize) -> ChannelSums
        requires there { 4 * at + 4 ≤ length columns.now }
        requires had { Has columns.now at self }
        ensures { Gains columns.now at result self }
    {
        ChannelSums {
            r: self.r - columns[4 * at] as u32,
            g: self.g - columns[4 * at + 1] as u32,
            b: self.b - columns[4 * at + 2] as u32,
            m: self.m - columns[4 * at + 3] as u32,
        }
    }

    /// With one pixel more.
    pub(crate) fn plus(self, pixel: Pixel) -> ChannelSums
        requires { IsAtMost 1000000 self }
        ensures red { result.r ≡ self.r + pixel.r }
        ensures green { result.g ≡ self.g + pixel.g }
        ensures blue { result.b ≡ self.b + pixel.b }
        ensures matte { result.m ≡ self.m + pixel.m }
    {
        ChannelSums {
            r: self.r + pixel.r() as u32,
            g: self.g + pixel.g() as u32,
            b: self.b + pixel.b() as u32,
            m: self.m + pixel.m() as u32,
        }
    }

    /// The pixel of the means of the channels.
    pub(crate) fn means(self, count: Divisor) -> Pixel
        requires sums { IsAtMost (255 * count.count) self }
        requires premultiplied { IsPixel (channels (self.r / count.count) (self.g / count.count) (self.b / count.count) (self.m / count.count)) }
        ensures { result ≡ channels (self.r / count.count) (self.g / count.count) (self.b / count.count) (self.m / count.count) }
    {
        Pixel::from_bytes([
            count.quotient(self.r),
            count.quotient(self.g),
            count.quotient(self.b),
            count.quotient(self.m),
        ])
    }

    /// Puts the means of the channels at the pixel with this number.
    pub(crate) fn put_means(self, count: Divisor, line: &mut [u8], at: usize)
        requires there { 4 * at + 4 ≤ length line.old }
        requires sums { IsAtMost (255 * count.count) self }
        ensures { line.new ≡ put_chunk (4 * at) line.old (self.r / count.count ∷ self.g / count.count ∷ self.b / count.count ∷ self.m / count.count ∷ []) }
    {
        let means = [
            count.quotient(self.r),
            count.quotient(self.g),
            count.quotient(self.b),
            count.quotient(self.m),
        ];
        u8x4::from_array(means).copy_to_slice(&mut line[4 * at..]);
    }
}
