ghost use Rattle.std.specs.Prelude.{◌≡◌, ℕ, ◌+◌, ◌*◌, ◌<◌, ◌≤◌, length, slice_index_or, IfSome};
ghost use Rattle.xs_cm32.specs.WordRows.{words};
ghost use Rattle.xs_cm32.specs.Word.{colour_under};
ghost use Rattle.xs_palette.specs.Styles.{style_of};
ghost use Rattle.xs_pixel.specs.Channels.{clear};
ghost use Rattle.xs_pixel.specs.Picture.{pixel_at};
ghost use Rattle.xs_rawfile.specs.Held.{coloured_of, picture_of};

use crate::drawing::{Drawing, RawKind};
use xs_cm32::{Cm32, colour};
use xs_palette::Palette;
use xs_pixel::Pixel;

/// The pixel with number `at` of a CM32 drawing, as it is seen under a palette.
fn word_colour_at(bytes: &[u8], at: usize, palette: &Palette) -> Pixel
    requires { 4 * at + 4 ≤ length bytes.now }
    ensures { result ≡ colour_under (style_of palette.now) (slice_index_or (words bytes.now) at 0) }
{
    let word = Cm32::from_row(bytes, at);
    colour(word, palette.style(word.ink()), palette.style(word.paint()))
}

/// The pixel with number `at` of a drawing, as it is seen under the palette with this number; clear
/// for a CM32 drawing without one.
fn coloured_at(drawing: &Drawing, palettes: &[Palette], number: Option<u32>, at: usize) -> Pixel
    requires room { 4 * at + 4 ≤ length drawing.now.bytes }
    requires palette { IfSome number (λ n. n < length palettes.now) }
    ensures { result ≡ slice_index_or (coloured_of palettes.now drawing.now.kind drawing.now.bytes number) at clear }
{
    match (drawing.kind(), number) {
        (RawKind::Colour, _) => Pixel::from_row(drawing.bytes(), at),
        (RawKind::Cm32, Some(n)) => word_colour_at(drawing.bytes(), at, &palettes[n as usize]),
        (RawKind::Cm32, None) => Pixel::CLEAR,
    }
}

/// The pixel of a drawing's picture at a point, clear beyond its box.
pub(crate) fn pixel_under(
    drawing: &Drawing,
    palettes: &[Palette],
    number: Option<u32>,
    x: i32,
    y: i32,
) -> Pixel
    requires { IfSome number (λ n. n < length palettes.now) }
    ensures { result ≡ pixel_at (picture_of palettes.now drawing.now number) x y }
{
    match drawing.place(x, y) {
        Some(at) => coloured_at(drawing, palettes, number, at),
        None => Pixel::CLEAR,
    }
}
