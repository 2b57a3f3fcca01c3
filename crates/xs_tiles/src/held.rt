//! Drawings that are held, two of each kind, with boxes and pixels that look random.

ghost use Rattle.std.specs.Prelude.{◌≡◌, IfOk, length};

use crate::random::Random;
use std::alloc::{AllocError, Global};
use std::marker::Brand;
use std::test::Fail;
use xs_base::List;
use xs_check::GoodScene;
use xs_palette::Palette;
use xs_rawfile::{Drawing, Drawings, RawKind};

/// The first palette of a scene, as it is written.
pub(crate) fn palettes(alloc: Global, scene: &GoodScene) -> Result<List<Palette>, Fail>
    ensures { IfOk result (λ list. length list ≡ 1) }
{
    let colours = scene.scene().palettes.items().first().ok_or("a palette")?;
    let palette = Palette::from_styles(alloc, colours.styles.items())?;
    Ok(List::of(vec![in alloc; palette]?))
}

/// Two colour drawings and two CM32 ones under the palette of a scene.
pub(crate) fn drawings(
    alloc: Global,
    random: &mut Random,
    scene: &GoodScene,
) -> Result<Drawings<Brand>, Fail> {
    let mut drawings = Drawings::<Brand>::new(alloc, 4, palettes(alloc, scene)?)?;
    drawings.set(0, colours(alloc, random)?, None);
    drawings.set(1, colours(alloc, random)?, None);
    drawings.set(2, words(alloc, random)?, Some(0));
    drawings.set(3, words(alloc, random)?, Some(0));
    Ok(drawings)
}

/// A drawing with a box of at most 90 by 90 pixels round the origin.
fn drawing(alloc: Global, random: &mut Random, kind: RawKind) -> Result<Drawing, Fail>
    ensures { IfOk result (λ d. d.kind ≡ kind) }
{
    let (w, h) = (random.below(90) + 1, random.below(90) + 1);
    let (x0, y0) = (random.below(w) as i32, random.below(h) as i32);
    let bytes = bytes(alloc, random, kind, w * h)?;
    Ok(Drawing::new(-x0, -y0, w, h, kind, List::of(bytes)).ok_or("a drawing")?)
}

fn colours(alloc: Global, random: &mut Random) -> Result<Drawing, Fail>
    ensures { IfOk result (λ d. d.kind ≡ RawKind.Colour) }
{
    drawing(alloc, random, RawKind::Colour)
}

fn words(alloc: Global, random: &mut Random) -> Result<Drawing, Fail>
    ensures { IfOk result (λ d. d.kind ≡ RawKind.Cm32) }
{
    drawing(alloc, random, RawKind::Cm32)
}

/// So many pixels or words, of which many are the same as the one before.
fn bytes(
    alloc: Global,
    random: &mut Random,
    kind: RawKind,
    count: u32,
) -> Result<Vec<u8>, AllocError> {
    let mut bytes = Vec::new(alloc);
    let mut last = four_bytes(random, kind);
    for _ in 0..count {
        if random.below(3) == 0 {
            last = four_bytes(random, kind);
        }
        bytes.extend_from_slice(&last)?;
    }
    Ok(bytes)
}

fn four_bytes(random: &mut Random, kind: RawKind) -> [u8; 4] {
    match kind {
        RawKind::Colour => pixel(random),
        RawKind::Cm32 => word(random).to_le_bytes(),
    }
}

/// A premultiplied pixel.
fn pixel(random: &mut Random) -> [u8; 4] {
    let matte = random.byte();
    [
        part(random, matte),
        part(random, matte),
        part(random, matte),
        matte,
    ]
}

/// A channel of at most a matte.
fn part(random: &mut Random, matte: u8) -> u8 {
    random.below(u32::from(matte) + 1) as u8
}

/// A word of which ink and paint may lack in the palette.
fn word(random: &mut Random) -> u32 {
    let (ink, paint) = (random.below(8), random.below(8));
    ink << 20 | paint << 8 | u32::from(random.byte())
}
