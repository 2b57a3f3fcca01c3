//! A palette with keys at several rows under filters, and the numbers of palettes.

use std::alloc::Global;
use std::test::Fail;
use xs_base::List;
use xs_palette::Palette;
use xs_pixel::Style;
use xs_scene::{Colours, StyleKey};
use xs_tint::{Dropped, Tints, palette_at};

fn opaque(r: u8, g: u8, b: u8) -> Style {
    Style { r, g, b, a: 255 }
}

/// Four styles, of which style 1 turns green at row 2 and blue at row 5.
fn colours(alloc: Global) -> Result<Colours, Fail> {
    let blue = StyleKey::new(5, 1, opaque(0, 0, 255)).ok_or("a key")?;
    let green = StyleKey::new(2, 1, opaque(0, 255, 0)).ok_or("a key")?;
    let keys = vec![in alloc; blue, green]?;
    let styles = vec![in alloc;
        opaque(9, 9, 9),
        opaque(1, 2, 3),
        opaque(4, 5, 6),
        opaque(7, 8, 9),
    ]?;
    Ok(Colours::new(List::of(styles), List::of(keys)).ok_or("colours")?)
}

/// What is dropped below one filter of style 3.
fn filter(alloc: Global, keep: bool) -> Result<Dropped, Fail> {
    let styles = List::of(vec![in alloc; 3u32]?);
    Ok(Dropped::none(alloc).with(alloc, keep, styles.items())?)
}

/// The pixels of styles 0 to 4 at a row below the filter.
fn shown(alloc: Global, row: u32, keep: bool) -> Result<[[u8; 4]; 5], Fail> {
    let colours = colours(alloc)?;
    let dropped = filter(alloc, keep)?;
    if colours.styles.items().len() > 4096 {
        return Err(Fail::from("many styles"));
    }
    let palette = palette_at(alloc, &colours, row, &dropped)?;
    Ok(bytes(&palette))
}

fn bytes(palette: &Palette) -> [[u8; 4]; 5] {
    [
        palette.style(0).to_bytes(),
        palette.style(1).to_bytes(),
        palette.style(2).to_bytes(),
        palette.style(3).to_bytes(),
        palette.style(4).to_bytes(),
    ]
}

#[test]
fn the_key_in_force_and_the_filter_give_each_style_its_pixel(rt: HostRuntime) -> Result<(), Fail> {
    let clear = [0, 0, 0, 0];
    let first = shown(rt.alloc(), 1, false)?;
    let fourth = shown(rt.alloc(), 4, false)?;
    let fifth = shown(rt.alloc(), 5, false)?;
    let kept = shown(rt.alloc(), 5, true)?;
    assert!(rt; first == [clear, [1, 2, 3, 255], [4, 5, 6, 255], clear, clear]);
    assert!(rt; fourth == [clear, [0, 255, 0, 255], [4, 5, 6, 255], clear, clear]);
    assert!(rt; fifth == [clear, [0, 0, 255, 255], [4, 5, 6, 255], clear, clear]);
    assert!(rt; kept == [clear, clear, clear, [7, 8, 9, 255], clear]);
    Ok(())
}

/// The number that a palette of these styles gets.
fn number(alloc: Global, tints: &mut Tints, styles: &[Style]) -> Result<u32, Fail> {
    let palette = Palette::from_styles(alloc, styles).ok().ok_or("a palette")?;
    Ok(tints.intern(palette)?)
}

#[test]
fn palettes_with_the_same_pixels_have_one_number(rt: HostRuntime) -> Result<(), Fail> {
    let clear = Style {
        r: 5,
        g: 5,
        b: 5,
        a: 0,
    };
    let mut tints = Tints::new(rt.alloc())?;
    let red = number(
        rt.alloc(),
        &mut tints,
        &[opaque(1, 1, 1), opaque(255, 0, 0)],
    )?;
    let green = number(
        rt.alloc(),
        &mut tints,
        &[opaque(1, 1, 1), opaque(0, 255, 0)],
    )?;
    let same = number(
        rt.alloc(),
        &mut tints,
        &[opaque(2, 2, 2), opaque(255, 0, 0), clear],
    )?;
    let none = number(rt.alloc(), &mut tints, &[])?;
    assert!(rt; [red, green, same, none] == [0, 1, 0, 2]);
    Ok(())
}

#[test]
fn a_palette_comes_back_by_its_number(rt: HostRuntime) -> Result<(), Fail> {
    let styles = [opaque(1, 1, 1), opaque(0, 255, 0)];
    let palette = Palette::from_styles(rt.alloc(), &styles)
        .ok()
        .ok_or("a palette")?;
    let mut tints = Tints::new(rt.alloc())?;
    let number = tints.intern(palette)?;
    assert_eq!(rt; tints.palette(number).style(1).to_bytes(), [0, 255, 0, 255]);
    Ok(())
}
