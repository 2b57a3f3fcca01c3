//! The bare works that jobs are measured against.

ghost use Rattle.std.specs.Prelude.{◌≡◌, ◌≤◌, ◌*◌, ◌%◌, true, length, vec_len, IsTrue, IfOk};
ghost use Rattle.xs_base.specs.declared.limits.TheConstants.{GREATEST_RADIUS};
ghost use Rattle.xs_rect.specs.Area.{grown};

use crate::fault::Fault;
use crate::works::Work;
use std::alloc::{AllocError, Global};
use xs_base::limits::GREATEST_RADIUS;
use xs_blur::blur;
use xs_lanes::{cm32_row, fill_row, op_row};
use xs_palette::Palette;
use xs_pixel::{Op, Pixel};
use xs_raster::{Raster, Tile};
use xs_rect::Rect;

/// An operation on the rows of two rasters, at once.
#[derive(Drop)]
pub(crate) struct PairRow<'a> {
    op: Op,
    first: &'a Raster,
    second: &'a Raster,
    to: Vec<u8>,
    ghost first_there: { first.now.has_bytes ≡ true },
    ghost second_there: { second.now.has_bytes ≡ true },
    ghost same: { length second.now.pixels ≡ length first.now.pixels },
    ghost room: { vec_len to ≡ 4 * length first.now.pixels },
}

impl<'a> PairRow<'a> {
    /// Of two rasters that have as many bytes.
    pub(crate) fn of(
        alloc: Global,
        op: Op,
        first: &'a Raster,
        second: &'a Raster,
    ) -> Result<PairRow<'a>, Fault> {
        if !first.has_bytes() || !second.has_bytes() {
            return Err(Fault::Input);
        }
        if second.bytes().len() != first.bytes().len() {
            return Err(Fault::Input);
        }
        let to = vec![in alloc; 0u8; first.bytes().len()]?;
        Ok(PairRow {
            op,
            first,
            second,
            to,
        })
    }
}

impl<'a> Work for PairRow<'a> {
    fn run(&mut self) -> Result<(), Fault> {
        op_row(
            self.op,
            self.first.bytes(),
            self.second.bytes(),
            &mut self.to,
        );
        Ok(())
    }
}

/// The colours of a row of words.
#[derive(Drop)]
pub(crate) struct WordRow<'a> {
    row: &'a [u8],
    palette: &'a Palette,
    to: Vec<u8>,
    ghost room: { vec_len to ≡ length row.now },
    ghost whole: { length row.now % 4 ≡ 0 },
}

impl<'a> WordRow<'a> {
    /// Of the bytes of whole words.
    pub(crate) fn of(
        alloc: Global,
        row: &'a [u8],
        palette: &'a Palette,
    ) -> Result<WordRow<'a>, Fault> {
        if row.len() % 4 != 0 {
            return Err(Fault::Input);
        }
        let to = vec![in alloc; 0u8; row.len()]?;
        Ok(WordRow { row, palette, to })
    }
}

impl<'a> Work for WordRow<'a> {
    fn run(&mut self) -> Result<(), Fault> {
        cm32_row(self.row, self.palette, &mut self.to);
        Ok(())
    }
}

/// One pixel over all of a row.
#[derive(Drop)]
pub(crate) struct FilledRow {
    pixel: Pixel,
    to: Vec<u8>,
    ghost whole: { vec_len to % 4 ≡ 0 },
}

impl FilledRow {
    /// Of so many pixels.
    pub(crate) fn of(alloc: Global, pixel: Pixel, pixels: u32) -> Result<FilledRow, AllocError> {
        let to = vec![in alloc; 0u8; 4 * pixels as usize]?;
        Ok(FilledRow { pixel, to })
    }
}

impl Work for FilledRow {
    fn run(&mut self) -> Result<(), Fault> {
        fill_row(self.pixel, &mut self.to);
        Ok(())
    }
}

/// A clear raster with the rectangle of a tile is made, and the rows of the tile are pasted into it.
#[derive(Drop)]
pub(crate) struct PastedRows<'a> {
    pub(crate) alloc: Global,
    pub(crate) tile: &'a Tile,
}

/// The clear raster of a rectangle.
fn clear(alloc: Global, rect: Rect) -> Result<Raster, Fault>
    ensures { IfOk result (λ r. r.has_bytes ≡ true) }
{
    match Raster::clear(alloc, rect) {
        Ok(raster) => Ok(raster),
        Err(_) => Err(Fault::Memory),
    }
}

impl<'a> Work for PastedRows<'a> {
    fn run(&mut self) -> Result<(), Fault> {
        let mut made = clear(self.alloc, self.tile.raster().rect())?;
        made.paste(self.tile);
        Ok(())
    }
}

/// The blur of a raster by itself, which stands on the rectangle grown by the radius.
#[derive(Drop)]
pub(crate) struct BareBlur<'a> {
    pub(crate) alloc: Global,
    pub(crate) input: &'a Raster,
    pub(crate) radius: u32,
    pub(crate) rect: Rect,
    ghost radius_in: { radius ≤ GREATEST_RADIUS },
    ghost there: { input.now.area ≡ grown rect radius },
}

/// Whether a raster is what the blur of a rectangle reads.
pub(crate) fn is_read(input: &Raster, radius: u32, rect: Rect) -> bool
    ensures { IsTrue result → (radius ≤ GREATEST_RADIUS) × (input.now.area ≡ grown rect radius) }
{
    if radius > GREATEST_RADIUS {
        return false;
    }
    match rect.grow(radius) {
        Some(wide) => input.rect() == wide,
        None => false,
    }
}

impl<'a> Work for BareBlur<'a> {
    fn run(&mut self) -> Result<(), Fault> {
        let _made = blur(self.alloc, self.input, self.radius, self.rect)?;
        Ok(())
    }
}
