ghost use Rattle.std.specs.Prelude.{◌≡◌, ℕ, ◌+◌, ◌≤◌, ◌%◌, [], ◌∷◌, length};
ghost use Rattle.std.specs.Simd.Lanes.{Each1, zip2, chunk};
ghost use Rattle.xs_pixel.specs.Channels.{IsPixel};
ghost use Rattle.xs_pixel.specs.PixelRows.{pixels};
ghost use Rattle.xs_lanes.specs.Done.{Done};

use std::simd::prelude::*;
use xs_pixel::Pixel;

/// An operation on an upper and a lower pixel, one at a time and four at a time.
pub(crate) trait Kernel {
    ghost use Rattle.xs_pixel.specs.Channels.{Channels};

    ghost op: { Channels → Channels → Channels };

    fn one(u: Pixel, d: Pixel) -> Pixel
        ensures { result ≡ op u d };

    fn block(u: u8x16, d: u8x16) -> u8x16
        requires first { Each1 IsPixel (pixels u) }
        requires second { Each1 IsPixel (pixels d) }
        ensures long { length result ≡ 16 }
        ensures value { pixels result ≡ zip2 op (pixels u) (pixels d) };
}

/// The pixel whose bytes begin at a place of a row.
pub(crate) fn pixel_at(row: &[u8], at: usize) -> Pixel
    requires room { at + 4 ≤ length row.now }
    requires valid { Each1 IsPixel (pixels (chunk at 4 row.now)) }
    ensures { pixels (chunk at 4 row.now) ≡ result ∷ [] }
{
    Pixel::from_bytes(u8x4::from_slice(&row[at..]).to_array())
}

/// Does as many pixels as fill whole blocks, and returns the place of the first byte that is left.
fn blocks<K: Kernel>(u: &[u8], d: &[u8], to: &mut [u8]) -> usize
    requires same { length d.now ≡ length u.now }
    requires room { length to.old ≡ length u.now }
    requires whole { length u.now % 4 ≡ 0 }
    requires first { Each1 IsPixel (pixels u.now) }
    requires second { Each1 IsPixel (pixels d.now) }
    ensures { Done (zip2 K.op (pixels u.now) (pixels d.now)) to.new result }
{
    let mut at = 0;
    while u.len() - at >= 16 {
        K::block(u8x16::from_slice(&u[at..]), u8x16::from_slice(&d[at..])).copy_to_slice(
            &mut to[at..],
        );
        at += 16;
    }
    at
}

/// Does the pixels from a place on, one after another.
fn rest<K: Kernel>(u: &[u8], d: &[u8], to: &mut [u8], from: usize)
    requires same { length d.now ≡ length u.now }
    requires room { length to.old ≡ length u.now }
    requires whole { length u.now % 4 ≡ 0 }
    requires first { Each1 IsPixel (pixels u.now) }
    requires second { Each1 IsPixel (pixels d.now) }
    requires so_far { Done (zip2 K.op (pixels u.now) (pixels d.now)) to.old from }
    ensures { pixels to.new ≡ zip2 K.op (pixels u.now) (pixels d.now) }
{
    let mut at = from;
    while at < u.len() {
        let pixel = K::one(pixel_at(u, at), pixel_at(d, at));
        u8x4::from_array(pixel.to_bytes()).copy_to_slice(&mut to[at..]);
        at += 4;
    }
}

/// Does as many pixels as fill whole blocks, or none where they are to be done one after another, and
/// returns the place of the first byte that is left.
fn start<K: Kernel>(u: &[u8], d: &[u8], to: &mut [u8], by_blocks: bool) -> usize
    requires same { length d.now ≡ length u.now }
    requires room { length to.old ≡ length u.now }
    requires whole { length u.now % 4 ≡ 0 }
    requires first { Each1 IsPixel (pixels u.now) }
    requires second { Each1 IsPixel (pixels d.now) }
    ensures { Done (zip2 K.op (pixels u.now) (pixels d.now)) to.new result }
{
    if by_blocks { blocks::<K>(u, d, to) } else { 0 }
}

/// Does a whole row: by blocks and then the pixels that are left, or one pixel after another.
pub(crate) fn row<K: Kernel>(u: &[u8], d: &[u8], to: &mut [u8], by_blocks: bool)
    requires same { length d.now ≡ length u.now }
    requires room { length to.old ≡ length u.now }
    requires whole { length u.now % 4 ≡ 0 }
    requires first { Each1 IsPixel (pixels u.now) }
    requires second { Each1 IsPixel (pixels d.now) }
    ensures { pixels to.new ≡ zip2 K.op (pixels u.now) (pixels d.now) }
{
    let from = start::<K>(u, d, to, by_blocks);
    rest::<K>(u, d, to, from);
}
