//! The blur of square tiles, at several radii.

ghost use Rattle.std.specs.Prelude.{◌≡◌, ◌≤◌};
ghost use Rattle.xs_base.specs.declared.limits.TheConstants.{GREATEST_RADIUS};
ghost use Rattle.xs_rect.specs.Area.{grown};

use crate::tiles::Random;
use std::alloc::Global;
use std::io;
use std::rt::Clock;
use std::time::Instant;
use xs_blur::blur;
use xs_pixel::Pixel;
use xs_raster::Raster;
use xs_rect::Rect;

/// How often a tile is blurred; the least time counts.
const ROUNDS: u32 = 400;

/// An answer that no input of this part has.
pub fn out_of_range() -> io::Error {
    io::Error::from(io::ErrorKind::InvalidInput)
}

/// An answer for want of memory.
pub fn out_of_memory() -> io::Error {
    io::Error::from(io::ErrorKind::OutOfMemory)
}

/// The bytes of an opaque pixel that looks random.
fn noise(random: &mut Random) -> Pixel {
    let [r, g, b, _] = random.next().to_le_bytes();
    match Pixel::new(r, g, b, 255) {
        Some(pixel) => pixel,
        None => Pixel::CLEAR,
    }
}

/// Puts a pixel that looks random at each point.
pub fn fill(raster: &mut Raster, random: &mut Random) {
    let all = raster.rect();
    for y in all.y()..all.y() + all.h() as i32 {
        for x in all.x()..all.x() + all.w() as i32 {
            let pixel = noise(random);
            if raster.has_bytes() && raster.rect().contains(x, y) {
                raster.put_row(x, y, &pixel.to_bytes());
            }
        }
    }
}

/// The least time of a pixel, in thousandths of a nanosecond.
fn least<R: Clock>(
    rt: &R,
    alloc: Global,
    input: &Raster,
    radius: u32,
    rect: Rect,
) -> io::Result<u64>
    requires radius { radius ≤ GREATEST_RADIUS }
    requires there { input.now.area ≡ grown rect radius }
{
    let pixels = u64::from(rect.w()) * u64::from(rect.h());
    let mut least = u64::MAX;
    for _ in 0..ROUNDS {
        let start = Instant::now(rt)?;
        let _made = blur(alloc, input, radius, rect).map_err(|_| out_of_memory())?;
        least = least.min(u64::from(start.elapsed(rt)?.subsec_nanos()) * 1000 / pixels);
    }
    Ok(least)
}

/// The time at a radius.
fn time_radius<R: Clock>(rt: &R, alloc: Global, rect: Rect, radius: u32) -> io::Result<u64>
    requires { radius ≤ GREATEST_RADIUS }
{
    let Some(wide) = rect.grow(radius) else {
        return Err(out_of_range());
    };
    let mut random = Random::new(7);
    let Ok(mut input) = Raster::clear(alloc, wide) else {
        return Err(out_of_memory());
    };
    fill(&mut input, &mut random);
    if input.rect() != wide {
        return Err(out_of_range());
    }
    least(rt, alloc, &input, radius, rect)
}

/// Prints a line for each side and radius: the two, and the time of a pixel in thousandths of a nanosecond.
pub fn time<R: Clock + Print>(rt: &R, alloc: Global) -> io::Result<()> {
    for side in [64, 192] {
        for radius in [1, 2, 4, 8, 16] {
            let Some(rect) = Rect::new(0, 0, side, side) else {
                return Err(out_of_range());
            };
            let time = time_radius(rt, alloc, rect, radius)?;
            println!(rt; "blur {side} {radius} {time}")?;
        }
    }
    Ok(())
}
