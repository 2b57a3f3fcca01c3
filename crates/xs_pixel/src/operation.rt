ghost use Rattle.std.specs.Prelude.{◌≡◌, ◌≤◌};
ghost use Rattle.xs_pixel.specs.Operations.{product, over_of, add_of, sub_of, mult_of, min_of, max_of, matte_in_of, matte_out_of, apply_of};

use crate::pixel::Pixel;

/// How a node composes its two inputs: the first is the upper pixel, the second the lower one.
#[derive(Clone, Copy, Debug, PartialEq, Eq, Hash)]
pub enum Op {
    /// The upper pixel laid over the lower one.
    Over,
    /// The sums of the channels, each at most 255.
    Add,
    /// The lower colours less the upper ones, each at least 0, under the lower matte.
    Sub,
    /// The products of the channels.
    Mult,
    /// The lesser of each channel.
    Min,
    /// The greater of each channel.
    Max,
    /// The upper pixel where the lower one has matte.
    MatteIn,
    /// The upper pixel where the lower one has no matte.
    MatteOut,
}

/// The product of two channels as parts of 255, rounded to the nearest whole number.
pub fn mul255(x: u8, y: u8) -> u8
    ensures value { result ≡ product x y }
    ensures at_most_first { result ≤ x }
    ensures at_most_second { result ≤ y }
{
    ((x as u16 * y as u16 + 127) / 255) as u8
}

/// `u` laid over `d`, by Porter and Duff's operation on premultiplied pixels.
pub fn over(u: Pixel, d: Pixel) -> Pixel
    ensures { result ≡ over_of u d }
{
    let rest = 255 - u.m;
    Pixel {
        r: u.r + mul255(d.r, rest),
        g: u.g + mul255(d.g, rest),
        b: u.b + mul255(d.b, rest),
        m: u.m + mul255(d.m, rest),
    }
}

/// The sums of the channels, each at most 255.
pub fn add(u: Pixel, d: Pixel) -> Pixel
    ensures { result ≡ add_of u d }
{
    Pixel {
        r: u.r.saturating_add(d.r),
        g: u.g.saturating_add(d.g),
        b: u.b.saturating_add(d.b),
        m: u.m.saturating_add(d.m),
    }
}

/// The colours of `d` less those of `u`, each at least 0, under the matte of `d`.
pub fn sub(u: Pixel, d: Pixel) -> Pixel
    ensures { result ≡ sub_of u d }
{
    Pixel {
        r: d.r.saturating_sub(u.r),
        g: d.g.saturating_sub(u.g),
        b: d.b.saturating_sub(u.b),
        m: d.m,
    }
}

/// The products of the channels.
pub fn mult(u: Pixel, d: Pixel) -> Pixel
    ensures { result ≡ mult_of u d }
{
    Pixel {
        r: mul255(u.r, d.r),
        g: mul255(u.g, d.g),
        b: mul255(u.b, d.b),
        m: mul255(u.m, d.m),
    }
}

/// The lesser of each channel.
pub fn min(u: Pixel, d: Pixel) -> Pixel
    ensures { result ≡ min_of u d }
{
    Pixel {
        r: u.r.min(d.r),
        g: u.g.min(d.g),
        b: u.b.min(d.b),
        m: u.m.min(d.m),
    }
}

/// The greater of each channel.
pub fn max(u: Pixel, d: Pixel) -> Pixel
    ensures { result ≡ max_of u d }
{
    Pixel {
        r: u.r.max(d.r),
        g: u.g.max(d.g),
        b: u.b.max(d.b),
        m: u.m.max(d.m),
    }
}

/// `u` where `d` has matte.
pub fn matte_in(u: Pixel, d: Pixel) -> Pixel
    ensures { result ≡ matte_in_of u d }
{
    u.faded(d.m)
}

/// `u` where `d` has no matte.
pub fn matte_out(u: Pixel, d: Pixel) -> Pixel
    ensures { result ≡ matte_out_of u d }
{
    u.faded(255 - d.m)
}

/// The result of `op` on the upper pixel `u` and the lower pixel `d`.
pub fn apply(op: Op, u: Pixel, d: Pixel) -> Pixel
    ensures { result ≡ apply_of op u d }
{
    match op {
        Op::Over => over(u, d),
        Op::Add => add(u, d),
        Op::Sub => sub(u, d),
        Op::Mult => mult(u, d),
        Op::Min => min(u, d),
        Op::Max => max(u, d),
        Op::MatteIn => matte_in(u, d),
        Op::MatteOut => matte_out(u, d),
    }
}
