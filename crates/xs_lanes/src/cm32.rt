ghost use Rattle.std.specs.Prelude.{◌≡◌, ℕ, ◌+◌, ◌*◌, ◌≤◌, ◌<◌, ◌%◌, ◌^◌, ◌++◌, [], ◌∷◌, map, length, IsTrue};
ghost use Rattle.std.specs.Simd.Lanes.{Each1, chunk};
ghost use Rattle.xs_pixel.specs.Channels.{IsPixel};
ghost use Rattle.xs_pixel.specs.PixelRows.{pixels};
ghost use Rattle.xs_cm32.specs.WordRows.{words};
ghost use Rattle.xs_cm32.specs.Word.{colour_under};
ghost use Rattle.xs_palette.specs.Styles.{style_of};
ghost use Rattle.xs_lanes.specs.WordColours.{looked_up, tones_of, mixes_of};
ghost use Rattle.xs_lanes.specs.Done.{Done};

use std::simd::prelude::*;
use xs_cm32::{colour, word_at, words_have_pixels};
use xs_palette::Palette;

/// The bytes of a style's pixel in a table whose last pixel, at the place `last`, is for all style
/// numbers past the palette's last.
#[inline(always)]
fn entry(table: &[u8], last: u32, id: u32) -> u8x4
    requires { length table.now ≡ 4 * (last + 1) }
    ensures long { length result ≡ 4 }
    ensures value { pixels result ≡ looked_up (pixels table.now) last id ∷ [] }
{
    let place = id.min(last) as usize;
    u8x4::from_slice(&table[4 * place..])
}

/// Four pixels one after another.
#[inline(always)]
fn joined(a: u8x4, b: u8x4, c: u8x4, d: u8x4) -> u8x16
    ensures long { length result ≡ 16 }
    ensures value { result ≡ (a ++ b) ++ (c ++ d) }
{
    let first: u8x8 = a.shuffle(b, [0, 1, 2, 3, 4, 5, 6, 7]);
    let second: u8x8 = c.shuffle(d, [0, 1, 2, 3, 4, 5, 6, 7]);
    first.shuffle(
        second,
        [0, 1, 2, 3, 4, 5, 6, 7, 8, 9, 10, 11, 12, 13, 14, 15],
    )
}

/// The tone of each of four words in all lanes of its pixel.
#[inline(always)]
fn tones(block: u8x16) -> u8x16
    ensures long { length result ≡ 16 }
    ensures value { result ≡ tones_of block }
{
    block.swizzle([0, 0, 0, 0, 4, 4, 4, 4, 8, 8, 8, 8, 12, 12, 12, 12])
}

/// The mixes of inks and paints by their tones.
#[inline(always)]
fn mixes(tones: u8x16, inks: u8x16, paints: u8x16) -> u8x16
    ensures long { length result ≡ 16 }
    ensures value { result ≡ mixes_of tones inks paints }
{
    let ink = inks.cast::<u16>() * (!tones).cast::<u16>();
    let sums = ink + paints.cast::<u16>() * tones.cast::<u16>();
    ((sums + u16x16::splat(1) + (sums >> 8)) >> 8).cast::<u8>()
}

/// The colours of four words.
#[inline(always)]
fn colours_at(row: &[u8], at: usize, table: &[u8], last: u32) -> u8x16
    requires room { at + 16 ≤ length row.now }
    requires whole { length table.now ≡ 4 * (last + 1) }
    ensures long { length result ≡ 16 }
    ensures value { pixels result ≡ map (colour_under (looked_up (pixels table.now) last)) (words (chunk at 16 row.now)) }
{
    let a = word_at(row, at);
    let b = word_at(row, at + 4);
    let c = word_at(row, at + 8);
    let d = word_at(row, at + 12);
    let inks = joined(
        entry(table, last, a.ink()),
        entry(table, last, b.ink()),
        entry(table, last, c.ink()),
        entry(table, last, d.ink()),
    );
    let paints = joined(
        entry(table, last, a.paint()),
        entry(table, last, b.paint()),
        entry(table, last, c.paint()),
        entry(table, last, d.paint()),
    );
    mixes(tones(u8x16::from_slice(&row[at..])), inks, paints)
}

/// Whether two blocks are equal.
#[inline(always)]
fn are_same(x: u8x16, y: u8x16) -> bool
    ensures { IsTrue result → x ≡ y }
{
    x.simd_ne(y).to_bitmask() == 0
}

/// The colours of four words, which are those of the block before where its words are the same.
#[inline(always)]
fn colours_after(row: &[u8], at: usize, table: &[u8], last: u32, seen: u8x16, made: u8x16) -> u8x16
    requires room { at + 16 ≤ length row.now }
    requires whole { length table.now ≡ 4 * (last + 1) }
    requires long { length made ≡ 16 }
    requires known { pixels made ≡ map (colour_under (looked_up (pixels table.now) last)) (words seen) }
    ensures long { length result ≡ 16 }
    ensures value { pixels result ≡ map (colour_under (looked_up (pixels table.now) last)) (words (chunk at 16 row.now)) }
{
    if are_same(u8x16::from_slice(&row[at..]), seen) {
        return made;
    }
    colours_at(row, at, table, last)
}

/// Colours as many words as make whole blocks, and returns the place of the first byte that is left.
fn blocks(row: &[u8], table: &[u8], last: u32, to: &mut [u8]) -> usize
    requires room { length to.old ≡ length row.now }
    requires whole { length table.now ≡ 4 * (last + 1) }
    ensures { Done (map (colour_under (looked_up (pixels table.now) last)) (words row.now)) to.new result }
{
    if row.len() < 16 {
        return 0;
    }
    let mut at = 0;
    let mut seen = u8x16::from_slice(row);
    let mut made = colours_at(row, 0, table, last);
    while row.len() - at >= 16 {
        made = colours_after(row, at, table, last, seen, made);
        seen = u8x16::from_slice(&row[at..]);
        made.copy_to_slice(&mut to[at..]);
        at += 16;
    }
    at
}

/// Colours the words from a place on, one after another.
pub(crate) fn rest(row: &[u8], p: &Palette, to: &mut [u8], from: usize)
    requires room { length to.old ≡ length row.now }
    requires whole { length row.now % 4 ≡ 0 }
    requires so_far { Done (map (colour_under (style_of p.now)) (words row.now)) to.old from }
    ensures { pixels to.new ≡ map (colour_under (style_of p.now)) (words row.now) }
{
    let mut at = from;
    while at < row.len() {
        let word = word_at(row, at);
        let pixel = colour(word, p.style(word.ink()), p.style(word.paint()));
        u8x4::from_array(pixel.to_bytes()).copy_to_slice(&mut to[at..]);
        at += 4;
    }
}

/// Writes the colours of a row of CM32 words under a palette: four bytes for each word, lowest first,
/// and four for each pixel. Both rows are equally long.
pub fn cm32_row(row: &[u8], p: &Palette, to: &mut [u8])
    requires room { length to.old ≡ length row.now }
    requires whole { length row.now % 4 ≡ 0 }
    ensures value { pixels to.new ≡ map (colour_under (style_of p.now)) (words row.now) }
    ensures valid { Each1 IsPixel (pixels to.new) }
{
    words_have_pixels();
    let table = p.table();
    let last = (table.len() / 4 - 1) as u32;
    let from = blocks(row, table, last, to);
    rest(row, p, to, from);
}
