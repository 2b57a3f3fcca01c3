ghost use Rattle.std.specs.Prelude.{◌≡◌, ◌+◌, ◌*◌, IfOk, length, take};
ghost use Rattle.xs_raster.specs.Bitmap.{bitmap, clear_pixels};
ghost use Rattle.xs_raster.specs.Changes.{Pastes};
ghost use Rattle.xs_rawfile.specs.declared.frame.TheConstants.{FRAME_HEADER};
ghost use Rattle.xs_rawfile.specs.Frame.{frame_file_of};
ghost use Rattle.xs_frames.specs.Canvases.{pixels_behind};

use std::alloc::Global;
use std::marker::Model;
use xs_base::Memory;
use xs_raster::{Tile, paste_into};
use xs_rawfile::{FRAME_HEADER, push_frame_header};
use xs_rect::Rect;

/// The bytes of a frame file, whose pixels can be painted over. Contracts see the rectangle and its pixels.
#[derive(Debug, Drop)]
pub(crate) struct Canvas {
    rect: Rect,
    bytes: Vec<u8>,
}

impl Model for Canvas {
    ghost use Rattle.xs_raster.specs.Bitmap.{Bitmap, bitmap};
    ghost use Rattle.xs_frames.specs.Canvases.{IsCanvas, pixels_behind};

    ghost Value = { Bitmap };

    ghost view = { λ c. bitmap c.rect (pixels_behind c.bytes.items) };

    ghost invariant = { λ c. IsCanvas c.rect c.bytes.items };
}

impl Canvas {
    /// The clear frame of this rectangle.
    pub(crate) fn clear(alloc: Global, rect: Rect) -> Result<Canvas, Memory>
        ensures { IfOk result (λ c. c ≡ bitmap rect (clear_pixels rect)) }
    {
        let (w, h) = (rect.w(), rect.h());
        let whole = FRAME_HEADER + 4 * (w as usize * h as usize);
        let mut bytes = Vec::with_capacity(alloc, whole)?;
        push_frame_header(&mut bytes, w, h)?;
        bytes.resize(whole, 0)?;
        Ok(Canvas { rect, bytes })
    }

    /// Sets the points that it has in common with a tile to the tile's pixels. Takes no memory.
    pub(crate) fn paste(&mut self, t: &Tile)
        ensures { Pastes self.old self.new t.now.raster }
    {
        paste_behind(&mut self.bytes, self.rect, t);
    }

    /// The bytes of the file. It has four for each pixel, and a pixel for each point.
    pub(crate) fn bytes(&self) -> &[u8]
        ensures file { result.now ≡ frame_file_of self.now }
        ensures whole { length self.now.pixels ≡ self.now.area.w * self.now.area.h }
    {
        self.bytes.as_slice()
    }
}

/// Pastes a tile into the pixels behind the header.
fn paste_behind(bytes: &mut [u8], rect: Rect, t: &Tile)
    requires { length bytes.old ≡ FRAME_HEADER + 4 * (rect.w * rect.h) }
    ensures header { take FRAME_HEADER bytes.new ≡ take FRAME_HEADER bytes.old }
    ensures points { Pastes (bitmap rect (pixels_behind bytes.old)) (bitmap rect (pixels_behind bytes.new))
        t.now.raster }
{
    paste_into(&mut bytes[FRAME_HEADER..], rect, t);
}
