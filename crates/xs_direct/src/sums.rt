ghost use Rattle.xs_direct.specs.Sums.{AreSums};

use std::marker::Model;
use xs_pixel::Pixel;

/// The sums of the channels of some pixels.
#[derive(Clone, Copy, Debug)]
pub(crate) struct Sums {
    r: u32,
    g: u32,
    b: u32,
    m: u32,
}

impl Model for Sums {
    ghost use Rattle.xs_pixel.specs.Channels.{Channels, channels};

    ghost Value = { Channels };

    ghost view = { λ s. channels s.r s.g s.b s.m };

    ghost inverse = { λ c. record { r = c.r; g = c.g; b = c.b; m = c.m } };
}

impl Sums {
    ghost use Rattle.std.specs.Prelude.{◌≡◌, ◌*◌, ◌<◌, ◌≤◌};
    ghost use Rattle.xs_pixel.specs.Channels.{clear};
    ghost use Rattle.xs_direct.specs.Sums.{AreSums, added, divided};

    /// The sums of no pixels.
    pub(crate) const NONE: Sums = Sums {
        r: 0,
        g: 0,
        b: 0,
        m: 0,
    };

    /// The sums of one pixel.
    pub(crate) fn of(pixel: Pixel) -> Sums
        ensures value { result ≡ pixel }
        ensures sums { AreSums 255 result }
    {
        Sums {
            r: pixel.r() as u32,
            g: pixel.g() as u32,
            b: pixel.b() as u32,
            m: pixel.m() as u32,
        }
    }

    /// The sums of the pixels of both.
    pub(crate) fn plus(self, other: Sums) -> Sums
        requires self_sums { AreSums 1000000 self }
        requires other_sums { AreSums 1000000 other }
        ensures { result ≡ added self other }
    {
        Sums {
            r: self.r + other.r,
            g: self.g + other.g,
            b: self.b + other.b,
            m: self.m + other.m,
        }
    }

    /// The mean of so many pixels, each channel rounded down.
    pub(crate) fn mean(self, count: u32) -> Pixel
        requires some { 0 < count }
        requires few { count ≤ 10000 }
        requires sums { AreSums (255 * count) self }
        ensures { result ≡ divided self count }
    {
        Pixel::from_bytes([
            (self.r / count) as u8,
            (self.g / count) as u8,
            (self.b / count) as u8,
            (self.m / count) as u8,
        ])
    }
}
