use crate::failure::Failure;
use crate::kind::Kind;
use crate::made::made;
use crate::random::Random;
use std::alloc::Global;
use xs_base::List;
use xs_pixel::Style;
use xs_scene::{Colours, StyleKey};

/// A straight colour, which is clear in about one of 16 cases.
pub fn style(random: &mut Random) -> Style {
    let (r, g, b) = (random.byte(), random.byte(), random.byte());
    let a = if random.one_in(4) { random.byte() } else { 255 };
    Style { r, g, b, a }
}

fn styles(alloc: Global, random: &mut Random) -> Result<List<Style>, Failure> {
    let mut styles = Vec::new(alloc);
    for _ in 0..random.from_to(2, 7) {
        styles.push(style(random))?;
    }
    Ok(List::of(styles))
}

/// Up to three keys of these styles, each at a row of its own.
fn keys(
    alloc: Global,
    random: &mut Random,
    styles: &List<Style>,
) -> Result<List<StyleKey>, Failure> {
    let mut keys = Vec::new(alloc);
    let mut row = 0u32;
    for _ in 0..random.below(4) {
        row = random.row_behind(row);
        let number = random.one_of(styles.items());
        keys.push(made(StyleKey::new(row, number, style(random)))?)?;
    }
    keys.reverse();
    Ok(List::of(keys))
}

/// A palette; in format 1 it has no keys.
fn palette(alloc: Global, random: &mut Random, kind: &Kind) -> Result<Colours, Failure> {
    let styles = styles(alloc, random)?;
    let keys = if kind.format == 1 {
        List::of(Vec::new(alloc))
    } else {
        keys(alloc, random, &styles)?
    };
    made(Colours::new(styles, keys))
}

/// One or two palettes.
pub fn palettes(alloc: Global, random: &mut Random, kind: &Kind) -> Result<List<Colours>, Failure> {
    let mut palettes = Vec::new(alloc);
    for _ in 0..random.from_to(1, 2) {
        palettes.push(palette(alloc, random, kind)?)?;
    }
    Ok(List::of(palettes))
}
