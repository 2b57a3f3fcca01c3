//! The pixels of a drawing that is moved.

ghost use Rattle.std.specs.Prelude.{◌≡◌, ◌≤◌, IfOk, IsSome, OnOk, replicate};
ghost use Rattle.xs_pixel.specs.Points.{minus, point};
ghost use Rattle.xs_raster.specs.declared.raster.TheConstants.{LONGEST_BLANK_SIDE};
ghost use Rattle.xs_rawfile.specs.Held.{slot_in};
ghost use Rattle.xs_rawfile.specs.declared.drawing.RawKind.TheVariants as kind;
ghost use Rattle.xs_plan.specs.Values.{plain_pixel, tinted_pixel};
ghost use Rattle.xs_bench.specs.Cells.{pixel_image, word_image};
ghost use Rattle.xs_bench.specs.Inputs.{held_pictures};
ghost use Rattle.xs_bench.specs.Shows.{Shows};

use crate::fresh::{byte_count, zeros};
use crate::offset::Offset;
use crate::overlap::{copy_box, overlap_of};
use std::alloc::Global;
use xs_base::Memory;
use xs_lanes::cm32_row;
use xs_palette::Palette;
use xs_pixel::Film;
use xs_raster::Raster;
use xs_rawfile::{Drawing, Drawings, RawKind};
use xs_rect::Rect;

/// A drawing as its palette is written. The words of a CM32 drawing are copied into `scratch`, whatever that
/// holds, and then coloured.
pub(crate) fn leaf<K: Film>(
    scratch: &mut Vec<u8>,
    alloc: Global,
    rect: Rect,
    d: &Drawings<K>,
    drawing: u32,
    to: Offset,
) -> Result<Raster, Memory>
    requires width { rect.w ≤ LONGEST_BLANK_SIDE }
    requires height { rect.h ≤ LONGEST_BLANK_SIDE }
    requires held { IsSome (slot_in d.now drawing) }
    ensures { IfOk result (Shows rect (λ q. plain_pixel (held_pictures d.now drawing) (minus q (point to.x to.y)))) }
{
    let Some(g) = d.get(drawing) else {
        return Ok(Raster::blank(alloc, rect));
    };
    match (g.kind(), d.palette(drawing)) {
        (RawKind::Colour, _) => pixels(alloc, rect, g, to),
        (RawKind::Cm32, Some(palette)) => words(scratch, alloc, rect, g, to, palette),
        (RawKind::Cm32, None) => Ok(Raster::blank(alloc, rect)),
    }
}

/// The words of a drawing under a tint; a colour drawing is clear.
pub(crate) fn tinted<K: Film>(
    scratch: &mut Vec<u8>,
    alloc: Global,
    rect: Rect,
    d: &Drawings<K>,
    drawing: u32,
    to: Offset,
    tint: &Palette,
) -> Result<Raster, Memory>
    requires width { rect.w ≤ LONGEST_BLANK_SIDE }
    requires height { rect.h ≤ LONGEST_BLANK_SIDE }
    ensures { IfOk result (Shows rect
        (λ q. tinted_pixel (held_pictures d.now drawing) tint.now (minus q (point to.x to.y)))) }
{
    let Some(g) = d.get(drawing) else {
        return Ok(Raster::blank(alloc, rect));
    };
    match g.kind() {
        RawKind::Colour => Ok(Raster::blank(alloc, rect)),
        RawKind::Cm32 => words(scratch, alloc, rect, g, to, tint),
    }
}

/// The pixels of a colour drawing.
fn pixels(alloc: Global, rect: Rect, g: &Drawing, to: Offset) -> Result<Raster, Memory>
    requires width { rect.w ≤ LONGEST_BLANK_SIDE }
    requires height { rect.h ≤ LONGEST_BLANK_SIDE }
    requires colour { g.now.kind ≡ kind.Colour }
    ensures { IfOk result (Shows rect (pixel_image g.now (point to.x to.y))) }
{
    let Some(shared) = overlap_of(rect, g, to) else {
        return Ok(Raster::blank(alloc, rect));
    };
    // that its bytes can be lent says that the drawing is one that a file may hold
    g.bytes();
    let mut bytes = zeros(alloc, byte_count(rect))?;
    copy_box(&mut bytes, rect, g, shared);
    Ok(Raster::from_bytes(rect, bytes))
}

/// The words of a CM32 drawing under a palette.
fn words(
    scratch: &mut Vec<u8>,
    alloc: Global,
    rect: Rect,
    g: &Drawing,
    to: Offset,
    palette: &Palette,
) -> Result<Raster, Memory>
    requires width { rect.w ≤ LONGEST_BLANK_SIDE }
    requires height { rect.h ≤ LONGEST_BLANK_SIDE }
    requires cm32 { g.now.kind ≡ kind.Cm32 }
    ensures { IfOk result (Shows rect (word_image g.now palette.now (point to.x to.y))) }
{
    let Some(shared) = overlap_of(rect, g, to) else {
        return Ok(Raster::blank(alloc, rect));
    };
    // that its bytes can be lent says that the drawing is one that a file may hold
    g.bytes();
    let count = byte_count(rect);
    clear_bytes(scratch, count)?;
    copy_box(scratch, rect, g, shared);
    let mut bytes = zeros(alloc, count)?;
    cm32_row(scratch, palette, &mut bytes);
    Ok(Raster::from_bytes(rect, bytes))
}

/// Makes a list hold so many bytes, all 0. It takes memory only where the list has no room.
fn clear_bytes(bytes: &mut Vec<u8>, n: usize) -> Result<(), Memory>
    ensures { OnOk result (bytes.new.items ≡ replicate n 0) }
{
    bytes.clear();
    bytes.resize(n, 0)?;
    Ok(())
}
