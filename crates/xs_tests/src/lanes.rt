//! Rows by lanes beside the plain ones, and rows from outside.

ghost use Rattle.std.specs.Prelude.{◌≡◌, ◌*◌, ◌%◌, ◌^◌, ◌<◌, length, vec_len, IfOk};
ghost use Rattle.std.specs.Simd.Lanes.{Each1};
ghost use Rattle.xs_pixel.specs.Channels.{IsPixel};
ghost use Rattle.xs_pixel.specs.PixelRows.{pixels};

use std::alloc::{AllocError, Global};
use std::process::Abort;
use std::test::Fail;
use xs_lanes::{cm32_row, fill_row, op_row, plain};
use xs_palette::Palette;
use xs_pixel::{Op, Pixel, Style};

const OPERATIONS: [Op; 8] = [
    Op::Over,
    Op::Add,
    Op::Sub,
    Op::Mult,
    Op::Min,
    Op::Max,
    Op::MatteIn,
    Op::MatteOut,
];

/// The pixels of a row of words.
fn coloured(alloc: Global, palette: &Palette, row: &[u8]) -> Result<Vec<u8>, AllocError>
    requires { length row.now % 4 ≡ 0 }
    ensures long { IfOk result (λ v. vec_len v ≡ length row.now) }
    ensures valid { IfOk result (λ v. Each1 IsPixel (pixels v.items)) }
{
    let mut pixels = vec![in alloc; 0u8; row.len()]?;
    cm32_row(row, palette, &mut pixels);
    Ok(pixels)
}

/// A row of so many equal pixels.
fn repeated(alloc: Global, p: Pixel, count: usize) -> Result<Vec<u8>, AllocError>
    requires { count < 2 ^ 32 }
    ensures long { IfOk result (λ v. vec_len v ≡ 4 * count) }
    ensures valid { IfOk result (λ v. Each1 IsPixel (pixels v.items)) }
{
    let mut pixels = vec![in alloc; 0u8; 4 * count]?;
    fill_row(p, &mut pixels);
    Ok(pixels)
}

fn compare(rt: &impl Abort, alloc: Global, u: &[u8], d: &[u8]) -> Result<(), AllocError>
    requires same { length d.now ≡ length u.now }
    requires whole { length u.now % 4 ≡ 0 }
    requires first { Each1 IsPixel (pixels u.now) }
    requires second { Each1 IsPixel (pixels d.now) }
{
    let mut by_lanes = vec![in alloc; 1u8; u.len()]?;
    let mut one_by_one = vec![in alloc; 2u8; u.len()]?;
    for op in OPERATIONS {
        op_row(op, u, d, &mut by_lanes);
        plain::op_row(op, u, d, &mut one_by_one);
        assert_eq!(rt; by_lanes.as_slice(), one_by_one.as_slice());
    }
    Ok(())
}

/// The bytes of so many words.
fn words<F: Fn(u32) -> u32>(alloc: Global, count: u32, word: F) -> Result<Vec<u8>, AllocError>
    requires { F.IsAlwaysCallable word }
    ensures { IfOk result (λ v. vec_len v ≡ 4 * count) }
{
    let mut row = Vec::new(alloc);
    for k in 0..count {
        row.extend_from_slice(&word(k).to_le_bytes())?;
    }
    Ok(row)
}

/// A palette whose styles 1 to 12 have each extreme matte with no colour and with all.
fn extremes(alloc: Global) -> Result<Palette, Fail> {
    let mut styles = Vec::new(alloc);
    styles.push(Style {
        r: 9,
        g: 9,
        b: 9,
        a: 9,
    })?;
    for a in [0, 1, 127, 128, 254, 255] {
        styles.push(Style {
            r: 0,
            g: 0,
            b: 0,
            a,
        })?;
        styles.push(Style {
            r: 255,
            g: 254,
            b: 1,
            a,
        })?;
    }
    Ok(Palette::from_styles(alloc, &styles)?)
}

#[test]
fn rows_of_every_length_are_as_the_plain_ones(rt: HostRuntime) -> Result<(), Fail> {
    let alloc = rt.alloc();
    let palette = extremes(alloc)?;
    for count in 0..66 {
        let upper = words(alloc, count, |k| k.wrapping_mul(0x9e37_79b1) & 0x00f0_0fff)?;
        let lower = words(alloc, count, |k| k.wrapping_mul(0x85eb_ca6b) & 0x00f0_0fff)?;
        let u = coloured(alloc, &palette, &upper)?;
        compare(&rt, alloc, &u, &coloured(alloc, &palette, &lower)?)?;
        let mut one_by_one = vec![in alloc; 0u8; upper.len()]?;
        plain::cm32_row(&upper, &palette, &mut one_by_one);
        assert_eq!(rt; u.as_slice(), one_by_one.as_slice());
    }
    Ok(())
}

#[test]
fn extreme_channels_are_as_in_the_plain_rows(rt: HostRuntime) -> Result<(), Fail> {
    let alloc = rt.alloc();
    let palette = extremes(alloc)?;
    let upper = words(alloc, 144, |k| (k / 12 + 1) << 20)?;
    let lower = words(alloc, 144, |k| (k % 12 + 1) << 20)?;
    let u = coloured(alloc, &palette, &upper)?;
    compare(&rt, alloc, &u, &coloured(alloc, &palette, &lower)?)?;
    Ok(())
}

#[test]
fn equal_pixels_make_rows_of_equal_pixels(rt: HostRuntime) -> Result<(), Fail> {
    let alloc = rt.alloc();
    let upper = Pixel::new(100, 0, 0, 200).ok_or("no pixel")?;
    let lower = Pixel::new(50, 60, 0, 100).ok_or("no pixel")?;
    for count in [0, 1, 15, 16, 17, 64] {
        let u = repeated(alloc, upper, count)?;
        let d = repeated(alloc, lower, count)?;
        let mut to = vec![in alloc; 0u8; 4 * count]?;
        for op in OPERATIONS {
            op_row(op, &u, &d, &mut to);
            let expected = repeated(alloc, xs_pixel::apply(op, upper, lower), count)?;
            assert_eq!(rt; to.as_slice(), expected.as_slice());
        }
    }
    Ok(())
}

#[test]
fn filled_and_coloured_rows_have_one_pixel(rt: HostRuntime) -> Result<(), Fail> {
    let alloc = rt.alloc();
    let red = Style {
        r: 255,
        g: 0,
        b: 0,
        a: 255,
    };
    let blue = Style {
        r: 0,
        g: 0,
        b: 255,
        a: 255,
    };
    let palette = Palette::from_styles(alloc, &[blue, red, blue])?;
    let row = words(alloc, 17, |_k| 0x0010_0264)?;
    for pixel in coloured(alloc, &palette, &row)?.chunks_exact(4) {
        assert_eq!(rt; pixel, [155, 0, 100, 255].as_slice());
    }
    let grey = Pixel::new(3, 3, 3, 9).ok_or("no pixel")?;
    let mut one_by_one = vec![in alloc; 0u8; 132]?;
    plain::fill_row(grey, &mut one_by_one);
    for filled in [repeated(alloc, grey, 33)?, one_by_one] {
        assert_eq!(rt; filled.len(), 132);
        for pixel in filled.chunks_exact(4) {
            assert_eq!(rt; pixel, [3, 3, 3, 9].as_slice());
        }
    }
    Ok(())
}
