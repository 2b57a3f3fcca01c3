//! Palettes from outside, which the clauses of `xs_palette` have to mean.

use std::alloc::{AllocError, Global};
use std::test::Fail;
use xs_palette::{Palette, PaletteFault};
use xs_pixel::Style;

fn grey(level: u8) -> Style {
    Style {
        r: level,
        g: level,
        b: level,
        a: 255,
    }
}

fn greys(alloc: Global, count: usize) -> Result<Vec<Style>, AllocError> {
    let mut styles = Vec::new(alloc);
    for _ in 0..count {
        styles.push(grey(7))?;
    }
    Ok(styles)
}

#[test]
fn styles_are_premultiplied_and_the_others_clear(rt: HostRuntime) -> Result<(), Fail> {
    let half = Style {
        r: 255,
        g: 100,
        b: 0,
        a: 128,
    };
    let palette = Palette::from_styles(rt.alloc(), &[grey(9), grey(5), half])?;
    let expected = [
        (0, [0, 0, 0, 0]),
        (1, [5, 5, 5, 255]),
        (2, [128, 50, 0, 128]),
        (3, [0, 0, 0, 0]),
        (4096, [0, 0, 0, 0]),
        (u32::MAX, [0, 0, 0, 0]),
    ];
    for (id, bytes) in expected {
        assert_eq!(rt; palette.style(id).to_bytes(), bytes, "style {id}");
    }
    assert_eq!(rt; palette.table().len(), 16);
    let empty = Palette::from_styles(rt.alloc(), &[])?;
    assert_eq!(rt; empty.style(1).to_bytes(), [0, 0, 0, 0]);
    Ok(())
}

#[test]
fn at_most_4096_styles(rt: HostRuntime) -> Result<(), Fail> {
    let styles = greys(rt.alloc(), 4097)?;
    let full = Palette::from_styles(rt.alloc(), styles.get(..4096).ok_or("too few")?)?;
    assert_eq!(rt; full.style(4095).to_bytes(), [7, 7, 7, 255]);
    assert_eq!(rt; full.style(4096).to_bytes(), [0, 0, 0, 0]);
    match Palette::from_styles(rt.alloc(), &styles) {
        Err(fault) => assert_eq!(rt; fault, PaletteFault::TooMany),
        Ok(_) => assert!(rt; false, "4097 styles were taken"),
    }
    Ok(())
}
