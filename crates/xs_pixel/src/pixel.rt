ghost use Rattle.std.specs.Prelude.{◌≡◌, ◌+◌, ◌*◌, ◌≤◌, ◌↔◌, [], ◌∷◌, length, slice_index_or, IsSome, IfSome};
ghost use Rattle.std.specs.Simd.Lanes.{Each1};
ghost use Rattle.xs_pixel.specs.PixelRows.{pixels};

use crate::operation::mul255;
use std::marker::Model;
use std::simd::prelude::*;

/// A premultiplied pixel: red, green, blue and matte (opacity), each from 0 to 255, no colour above
/// the matte.
#[derive(Clone, Copy, Debug, PartialEq, Eq, Hash)]
pub struct Pixel {
    pub(crate) r: u8,
    pub(crate) g: u8,
    pub(crate) b: u8,
    pub(crate) m: u8,
}

impl Model for Pixel {
    ghost use Rattle.xs_pixel.specs.Channels.{Channels, IsPixel, channels};

    ghost Value = { Channels };

    ghost view = { λ p. channels p.r p.g p.b p.m };

    ghost invariant = { λ p. IsPixel (channels p.r p.g p.b p.m) };

    ghost inverse = { λ c. record { r = c.r; g = c.g; b = c.b; m = c.m } };
}

impl Pixel {
    ghost use Rattle.xs_pixel.specs.Channels.{Channels, IsPixel, channels, clear};
    ghost use Rattle.xs_pixel.specs.Operations.{faded_of};

    /// No colour and no matte.
    pub const CLEAR: Pixel = Pixel {
        r: 0,
        g: 0,
        b: 0,
        m: 0,
    };

    /// The pixel with these channels; None exactly where a colour exceeds the matte.
    pub fn new(r: u8, g: u8, b: u8, m: u8) -> Option<Pixel>
        ensures valid { IsSome result ↔ IsPixel (channels r g b m) }
        ensures value { IfSome result (λ p. p ≡ channels r g b m) }
    {
        if r <= m && g <= m && b <= m {
            Some(Pixel { r, g, b, m })
        } else {
            None
        }
    }

    /// The pixel with these bytes, which are red, green, blue and matte.
    pub fn from_bytes(bytes: [u8; 4]) -> Pixel
        requires { Each1 IsPixel (pixels bytes) }
        ensures { pixels bytes ≡ result ∷ [] }
    {
        let [r, g, b, m] = bytes;
        Pixel { r, g, b, m }
    }

    /// The pixel with number `place` of a row of bytes.
    pub fn from_row(row: &[u8], place: usize) -> Pixel
        requires room { 4 * place + 4 ≤ length row.now }
        requires premultiplied { Each1 IsPixel (pixels row.now) }
        ensures { result ≡ slice_index_or (pixels row.now) place clear }
    {
        Pixel::from_bytes(u8x4::from_slice(&row[4 * place..]).to_array())
    }

    /// Red, green, blue and matte.
    pub fn to_bytes(self) -> [u8; 4]
        ensures bytes { pixels result ≡ self ∷ [] }
        ensures valid { IsPixel self }
    {
        [self.r, self.g, self.b, self.m]
    }

    /// Red.
    pub fn r(self) -> u8
        ensures { result ≡ self.r }
    {
        self.r
    }

    /// Green.
    pub fn g(self) -> u8
        ensures { result ≡ self.g }
    {
        self.g
    }

    /// Blue.
    pub fn b(self) -> u8
        ensures { result ≡ self.b }
    {
        self.b
    }

    /// Matte: 0 is clear, 255 is opaque.
    pub fn m(self) -> u8
        ensures value { result ≡ self.m }
        ensures valid { IsPixel self }
    {
        self.m
    }

    /// This pixel with each channel multiplied by `part` of 255.
    pub(crate) fn faded(self, part: u8) -> Pixel
        ensures { result ≡ faded_of self part }
    {
        Pixel {
            r: mul255(self.r, part),
            g: mul255(self.g, part),
            b: mul255(self.b, part),
            m: mul255(self.m, part),
        }
    }
}
