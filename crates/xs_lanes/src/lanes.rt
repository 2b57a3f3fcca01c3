ghost use Rattle.std.specs.Prelude.{◌≡◌, ◌+◌, ◌-◌, ◌%◌, min, max, map, length, IsTrue};
ghost use Rattle.std.specs.Simd.Lanes.{Each1, zip2};
ghost use Rattle.xs_pixel.specs.Operations.{product};
ghost use Rattle.xs_lanes.specs.WordColours.{colour_lanes};

use std::simd::prelude::*;

/// The products of the lanes as parts of 255, rounded to the nearest whole number.
#[inline(always)]
pub(crate) fn products(x: u8x16, y: u8x16) -> u8x16
    ensures long { length result ≡ 16 }
    ensures value { result ≡ zip2 product x y }
{
    let sums = x.cast::<u16>() * y.cast::<u16>() + u16x16::splat(128);
    ((sums + (sums >> 8)) >> 8).cast::<u8>()
}

/// The sums of the lanes without what is carried out of a byte.
#[inline(always)]
pub(crate) fn sums(x: u8x16, y: u8x16) -> u8x16
    ensures long { length result ≡ 16 }
    ensures value { result ≡ zip2 (λ a b. (a + b) % 256) x y }
{
    x + y
}

/// The sums of the lanes, each at most 255.
#[inline(always)]
pub(crate) fn capped_sums(x: u8x16, y: u8x16) -> u8x16
    ensures long { length result ≡ 16 }
    ensures value { result ≡ zip2 (λ a b. min 255 (a + b)) x y }
{
    x.saturating_add(y)
}

/// The lanes of `x` less those of `y`, each at least 0.
#[inline(always)]
pub(crate) fn differences(x: u8x16, y: u8x16) -> u8x16
    ensures long { length result ≡ 16 }
    ensures value { result ≡ zip2 (λ a b. a - b) x y }
{
    x.saturating_sub(y)
}

/// The lesser of each two lanes.
#[inline(always)]
pub(crate) fn lesser(x: u8x16, y: u8x16) -> u8x16
    ensures long { length result ≡ 16 }
    ensures value { result ≡ zip2 min x y }
{
    x.simd_min(y)
}

/// The greater of each two lanes.
#[inline(always)]
pub(crate) fn greater(x: u8x16, y: u8x16) -> u8x16
    ensures long { length result ≡ 16 }
    ensures value { result ≡ zip2 max x y }
{
    x.simd_max(y)
}

/// What each lane lacks of 255.
#[inline(always)]
pub(crate) fn complements(x: u8x16) -> u8x16
    ensures long { length result ≡ 16 }
    ensures value { result ≡ map (λ a. 255 - a) x }
{
    !x
}

/// The colours of each pixel, with nothing in the place of its matte.
#[inline(always)]
pub(crate) fn colours(u: u8x16) -> u8x16
    ensures long { length result ≡ 16 }
    ensures value { result ≡ zip2 min u (colour_lanes 4) }
{
    lesser(
        u,
        u8x16::from_array([
            255, 255, 255, 0, 255, 255, 255, 0, 255, 255, 255, 0, 255, 255, 255, 0,
        ]),
    )
}

/// Whether each lane is `value`.
#[inline(always)]
pub(crate) fn are_all(x: u8x16, value: u8) -> bool
    ensures { IsTrue result → Each1 (λ a. a ≡ value) x }
{
    x.simd_ne(u8x16::splat(value)).to_bitmask() == 0
}
