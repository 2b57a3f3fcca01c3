ghost use Rattle.std.specs.Prelude.{◌≡◌, ℕ, ◌+◌, ◌*◌, ◌/◌, ◌%◌, ◌<◌, ◌≤◌, ◌++◌, true, false, length, IfOk, OnErr, OnOk, replicate};
ghost use Rattle.std.specs.Simd.Lanes.{Each1, chunk, put_chunk};
ghost use Rattle.xs_pixel.specs.Channels.{IsPixel, clear};
ghost use Rattle.xs_pixel.specs.PixelRows.{pixels};
ghost use Rattle.xs_rect.specs.Area.{IsPart, Holds, Lies};
ghost use Rattle.xs_raster.specs.Bitmap.{Bitmap, bitmap, blank, bytes_of, place_of, pixel_of, row_of};
ghost use Rattle.xs_raster.specs.Changes.{SetsRow, Pastes};

use crate::rows::{clear_row, paste_into, pixels_from, place, put_line};
use crate::tile::Tile;
use std::alloc::{AllocError, Global};
use std::marker::Model;
use xs_base::Memory;
use xs_pixel::Pixel;
use xs_pixel::laws::rows_of_bytes_are_rows_of_pixels;
use xs_rect::Rect;

/// The longest side of a raster without bytes, in pixels: that of a tile with the border of its blurs.
pub const LONGEST_BLANK_SIDE: usize = 192;

/// A rectangle of pixels. Its bytes are red, green, blue and matte of each pixel, in rows from the
/// lowest up and each from left to right. A clear one may have no bytes.
#[derive(Debug, Drop)]
pub struct Raster {
    rect: Rect,

    // none where the raster is clear and has no bytes
    bytes: Vec<u8>,
}

impl Model for Raster {
    ghost use Rattle.xs_raster.specs.Bitmap.{Bitmap, bitmap_of, IsRaster};

    ghost Value = { Bitmap };

    ghost view = { λ r. bitmap_of r.rect r.bytes.items };

    ghost invariant = { λ r. IsRaster r.rect r.bytes.items };
}

impl Raster {
    /// The clear raster of this rectangle, with all the memory that it will ever have.
    pub fn clear(alloc: Global, rect: Rect) -> Result<Raster, Memory>
        ensures { IfOk result (λ r. r ≡ bitmap rect (replicate (rect.w * rect.h) clear)) }
    {
        let bytes = zeros(alloc, 4 * (rect.w() as usize * rect.h() as usize))?;
        Ok(Raster::from_bytes(rect, bytes))
    }

    /// The clear raster of this rectangle, without bytes: it reads as any other, and nothing can be put
    /// into it. Takes no memory.
    pub fn blank(alloc: Global, rect: Rect) -> Raster
        requires width { rect.w ≤ LONGEST_BLANK_SIDE }
        requires height { rect.h ≤ LONGEST_BLANK_SIDE }
        ensures { result ≡ blank rect }
    {
        Raster {
            rect,
            bytes: Vec::new(alloc),
        }
    }

    /// The raster of this rectangle with these bytes. Takes no memory.
    pub fn from_bytes(rect: Rect, bytes: Vec<u8>) -> Raster
        requires whole { length bytes.items ≡ 4 * (rect.w * rect.h) }
        requires premultiplied { Each1 IsPixel (pixels bytes.items) }
        ensures { result ≡ bitmap rect (pixels bytes.items) }
    {
        // no side is 0, so that there are some bytes
        let (_w, _h) = (rect.w(), rect.h());
        Raster { rect, bytes }
    }

    /// A second raster with these pixels. One without bytes takes no memory.
    pub fn copy(&self, alloc: Global) -> Result<Raster, Memory>
        ensures { IfOk result (λ r. r ≡ self.now) }
    {
        let mut bytes = Vec::with_capacity(alloc, self.bytes.len())?;
        bytes.extend_from_slice(self.bytes.as_slice())?;
        Ok(Raster {
            rect: self.rect,
            bytes,
        })
    }

    /// The rectangle.
    pub fn rect(&self) -> Rect
        ensures area { result ≡ self.now.area }
        ensures size { length self.now.pixels ≡ result.w * result.h }
        ensures premultiplied { Each1 IsPixel self.now.pixels }
    {
        rows_of_bytes_are_rows_of_pixels();
        self.rect
    }

    /// Whether it has bytes; one without them is clear.
    pub fn has_bytes(&self) -> bool
        ensures value { result ≡ self.now.has_bytes }
        ensures clear { result ≡ false → self.now ≡ blank self.now.area }
        ensures small { result ≡ false
            → (self.now.area.w ≤ LONGEST_BLANK_SIDE) × (self.now.area.h ≤ LONGEST_BLANK_SIDE) }
    {
        !self.bytes.is_empty()
    }

    /// The bytes of all rows, from the lowest up: four for each pixel.
    pub fn bytes(&self) -> &[u8]
        requires { self.now.has_bytes ≡ true }
        ensures exact { result.now ≡ bytes_of self.now.pixels }
        ensures pixels { pixels result.now ≡ self.now.pixels }
        ensures whole { length result.now ≡ 4 * length self.now.pixels }
        ensures premultiplied { Each1 IsPixel self.now.pixels }
    {
        rows_of_bytes_are_rows_of_pixels();
        self.bytes.as_slice()
    }

    /// Puts the bytes of all rows last, from the lowest up: four for each pixel, 0 where there are no bytes.
    /// After an error nothing is put there.
    pub fn push_bytes(&self, to: &mut Vec<u8>) -> Result<(), Memory>
        ensures bytes { OnOk result (to.new.items ≡ to.old.items ++ bytes_of self.now.pixels) }
        ensures kept { OnErr result (to.new.items ≡ to.old.items) }
    {
        rows_of_bytes_are_rows_of_pixels();
        if self.has_bytes() {
            to.extend_from_slice(self.bytes.as_slice())?;
            return Ok(());
        }
        let more = 4 * (self.rect.w() as usize * self.rect.h() as usize);
        to.resize(to.len() + more, 0)?;
        Ok(())
    }

    /// The bytes of the row of points with this y, from left to right: four for each pixel.
    pub fn row(&self, y: i32) -> &[u8]
        requires { Lies self.now.area.y self.now.area.h y }
        ensures pixels { pixels result.now ≡ row_of self.now y }
        ensures whole { length result.now ≡ 4 * self.now.area.w }
        ensures premultiplied { Each1 IsPixel (pixels result.now) }
    {
        self.part(self.rect.x(), y, self.rect.w())
    }

    /// The pixel at a point of the rectangle.
    pub fn pixel(&self, x: i32, y: i32) -> Pixel
        requires { Holds self.now.area x y }
        ensures { result ≡ pixel_of self.now x y }
    {
        Pixel::from_row(self.part(x, y, 1), 0)
    }

    /// Sets the pixels from the point (x, y) to the right to those of the bytes, four for each pixel. Takes no
    /// memory.
    pub fn put_row(&mut self, x: i32, y: i32, bytes: &[u8])
        requires room { self.old.has_bytes ≡ true }
        requires whole { length bytes.now % 4 ≡ 0 }
        requires premultiplied { Each1 IsPixel (pixels bytes.now) }
        requires across { IsPart x (length bytes.now / 4) self.old.area.x self.old.area.w }
        requires up { Lies self.old.area.y self.old.area.h y }
        ensures points { SetsRow self.old self.new x y (pixels bytes.now) }
        ensures list { self.new ≡ bitmap self.old.area
            (put_chunk (place_of self.old.area x y) self.old.pixels (pixels bytes.now)) }
    {
        put_line(&mut self.bytes, self.rect, x, y, bytes);
    }

    /// Sets the points that this raster and the tile have in common to the tile's pixels. Takes no
    /// memory.
    pub fn paste(&mut self, t: &Tile)
        requires { self.old.has_bytes ≡ true }
        ensures { Pastes self.old self.new t.now.raster }
    {
        paste_into(&mut self.bytes, self.rect, t);
    }

    /// The bytes of `n` pixels from the point (x, y) to the right.
    pub(crate) fn part(&self, x: i32, y: i32, n: u32) -> &[u8]
        requires across { IsPart x n self.now.area.x self.now.area.w }
        requires up { Lies self.now.area.y self.now.area.h y }
        ensures pixels { pixels result.now ≡ chunk (place_of self.now.area x y) n self.now.pixels }
        ensures count { length (pixels result.now) ≡ n }
        ensures whole { length result.now ≡ 4 * n }
        ensures premultiplied { Each1 IsPixel (pixels result.now) }
    {
        if self.has_bytes() {
            let at = place(self.rect, x, y);
            return pixels_from(self.bytes.as_slice(), at, n as usize);
        }
        clear_row(n as usize)
    }
}

/// So many bytes, all 0.
fn zeros(alloc: Global, n: usize) -> Result<Vec<u8>, AllocError>
    ensures { IfOk result (λ bytes. bytes.items ≡ replicate n 0) }
{
    vec![in alloc; 0u8; n]
}
