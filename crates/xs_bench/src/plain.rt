//! The pixels of an alias, one after another.

ghost use Rattle.std.specs.Prelude.{◌≡◌, ◌<◌, ◌+◌, IfOk, length, option_map};
ghost use Rattle.std.specs.Option.{option_map_or};
ghost use Rattle.xs_rect.specs.Area.{Holds};
ghost use Rattle.xs_pixel.specs.Channels.{clear};
ghost use Rattle.xs_cm32.specs.Word.{colour_under};
ghost use Rattle.xs_palette.specs.Styles.{style_of};
ghost use Rattle.xs_pixel.specs.Points.{point};
ghost use Rattle.xs_plan.specs.Record.{entry_at};
ghost use Rattle.xs_plan.specs.Values.{tinted_pixel};
ghost use Rattle.xs_bench.specs.Inputs.{HasDrawing, HasInputs, held_pictures, made_image};
ghost use Rattle.xs_bench.specs.Shows.{Shows, ShowsPart};

use crate::input::pixels_of;
use std::alloc::Global;
use xs_base::Memory;
use xs_blur::blur_plain;
use xs_cm32::{Cm32, colour};
use xs_palette::Palette;
use xs_pixel::{Film, Pixel, apply};
use xs_plan::{Job, Plan};
use xs_raster::{Raster, Tile};
use xs_rawfile::Drawings;

/// The pixels of an alias.
pub(crate) fn raster<K: Film>(
    alloc: Global,
    p: &Plan,
    k: u32,
    a: Option<&Tile>,
    b: Option<&Tile>,
    d: &Drawings<K>,
) -> Result<Raster, Memory>
    requires there { k < length p.now.entries }
    requires inputs { HasInputs (entry_at p.now.entries k).job (entry_at p.now.entries k).rect
        (option_map (λ t. t.now) a) (option_map (λ t. t.now) b) }
    requires drawing { HasDrawing d.now (entry_at p.now.entries k).job }
    ensures { IfOk result (Shows (entry_at p.now.entries k).rect
        (made_image d.now p.now k (option_map (λ t. t.now) a.entry) (option_map (λ t. t.now) b.entry))) }
{
    let rect = p.rect(k);
    let mut result = Raster::clear(alloc, rect)?;
    for row in 0..rect.h() {
        put_row(&mut result, p, k, a, b, d, row);
    }
    Ok(result)
}

/// Puts the next row, where `row` rows are there.
fn put_row<K: Film>(
    to: &mut Raster,
    p: &Plan,
    k: u32,
    a: Option<&Tile>,
    b: Option<&Tile>,
    d: &Drawings<K>,
    row: u32,
)
    requires there { k < length p.now.entries }
    requires inputs { HasInputs (entry_at p.now.entries k).job (entry_at p.now.entries k).rect
        (option_map (λ t. t.now) a) (option_map (λ t. t.now) b) }
    requires drawing { HasDrawing d.now (entry_at p.now.entries k).job }
    requires row { row < (entry_at p.now.entries k).rect.h }
    requires before { ShowsPart (entry_at p.now.entries k).rect
        (made_image d.now p.now k (option_map (λ t. t.now) a) (option_map (λ t. t.now) b)) row 0 to.old }
    ensures { ShowsPart (entry_at p.now.entries k).rect
        (made_image d.now p.now k (option_map (λ t. t.now) a.entry) (option_map (λ t. t.now) b.entry))
        (row + 1) 0 to.new }
{
    let rect = p.rect(k);
    // its height is bounded
    let _high = rect.h();
    let y = rect.y() + row as i32;
    for column in 0..rect.w() {
        let x = rect.x() + column as i32;
        let bytes = pixel(p, k, a, b, d, x, y).to_bytes();
        to.put_row(x, y, &bytes);
    }
}

/// The pixel of an alias at a point of its rectangle.
fn pixel<K: Film>(
    p: &Plan,
    k: u32,
    a: Option<&Tile>,
    b: Option<&Tile>,
    d: &Drawings<K>,
    x: i32,
    y: i32,
) -> Pixel
    requires there { k < length p.now.entries }
    requires inputs { HasInputs (entry_at p.now.entries k).job (entry_at p.now.entries k).rect
        (option_map (λ t. t.now) a) (option_map (λ t. t.now) b) }
    requires drawing { HasDrawing d.now (entry_at p.now.entries k).job }
    requires point { Holds (entry_at p.now.entries k).rect x y }
    ensures { result
        ≡ made_image d.now p.now k (option_map (λ t. t.now) a.entry) (option_map (λ t. t.now) b.entry) (point x y) }
{
    // what may be relied on in a plan
    p.aliases();
    match p.job(k) {
        Job::Clear => Pixel::CLEAR,
        Job::Leaf { drawing, dx, dy } => d.pixel(drawing, x - dx, y - dy),
        Job::Tinted {
            drawing,
            dx,
            dy,
            tint,
        } => tinted(d, drawing, p.tint(tint), x - dx, y - dy),
        Job::Card(pixel) => pixel,
        Job::Pair(op) => apply(op, pixels_of(a).pixel(x, y), pixels_of(b).pixel(x, y)),
        Job::Blur(radius) => blur_plain(pixels_of(a), radius, x, y),
    }
}

/// The pixel of a drawing's word at a point under a tint; clear where it has none there.
fn tinted<K: Film>(d: &Drawings<K>, drawing: u32, tint: &Palette, x: i32, y: i32) -> Pixel
    ensures { result ≡ tinted_pixel (held_pictures d.now drawing) tint.now (point x y) }
{
    match d.get(drawing) {
        Some(drawing) => word_pixel(drawing.word(x, y), tint),
        None => Pixel::CLEAR,
    }
}

/// The pixel of a word under a tint; clear where there is none.
fn word_pixel(word: Option<Cm32>, tint: &Palette) -> Pixel
    ensures { result ≡ option_map_or (colour_under (style_of tint.now)) word clear }
{
    match word {
        Some(word) => colour(word, tint.style(word.ink()), tint.style(word.paint())),
        None => Pixel::CLEAR,
    }
}
