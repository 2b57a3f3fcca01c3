ghost use Rattle.std.specs.Prelude.{◌<◌, ◌≤◌};

use crate::failure::Failure;
use crate::made::made;
use crate::random::Random;
use std::alloc::Global;
use xs_base::List;
use xs_rawfile::{Drawing, RawKind};

/// A side of a drawing in pixels; in two of three cases no short one.
fn side(random: &mut Random) -> u32
    ensures { (0 < result) × (result ≤ 80) }
{
    if random.one_in(3) {
        random.from_to(1, 80)
    } else {
        random.from_to(30, 80)
    }
}

/// A channel of at most a matte.
fn channel(random: &mut Random, matte: u8) -> u8 {
    random.below(u32::from(matte) + 1) as u8
}

/// A premultiplied pixel.
fn pixel(random: &mut Random) -> [u8; 4] {
    let matte = random.byte();
    [
        channel(random, matte),
        channel(random, matte),
        channel(random, matte),
        matte,
    ]
}

/// A word of which ink and paint may lack in the palette.
fn word(random: &mut Random) -> u32 {
    let (ink, paint) = (random.below(7), random.below(7));
    ink << 20 | paint << 8 | u32::from(random.byte())
}

/// The four bytes of a pixel or of a word; of one of four they are 0.
fn four_bytes(random: &mut Random, kind: RawKind) -> [u8; 4] {
    if random.one_in(4) {
        return [0; 4];
    }
    match kind {
        RawKind::Colour => pixel(random),
        RawKind::Cm32 => word(random).to_le_bytes(),
    }
}

/// So many pixels or words, of which many are the same as the one before.
fn bytes(
    alloc: Global,
    random: &mut Random,
    kind: RawKind,
    count: u32,
) -> Result<Vec<u8>, Failure> {
    let mut bytes = Vec::new(alloc);
    let mut last = four_bytes(random, kind);
    for _ in 0..count {
        if random.one_in(5) {
            last = four_bytes(random, kind);
        }
        bytes.extend_from_slice(&last)?;
    }
    Ok(bytes)
}

/// The place of the corner of a drawing with this side along an axis. In four of five cases the origin is in its box.
fn corner(random: &mut Random, side: u32) -> i32
    requires { (0 < side) × (side ≤ 80) }
{
    if random.one_in(5) {
        random.place()
    } else {
        -(random.below(side) as i32)
    }
}

/// A drawing with a box of at most 80 by 80 pixels near the origin.
pub fn drawing(alloc: Global, random: &mut Random, kind: RawKind) -> Result<Drawing, Failure> {
    let (w, h) = (side(random), side(random));
    let (x0, y0) = (corner(random, w), corner(random, h));
    let bytes = bytes(alloc, random, kind, w * h)?;
    made(Drawing::new(x0, y0, w, h, kind, List::of(bytes)))
}
