ghost use Rattle.std.specs.Prelude.{◌≤◌, IfOk};
ghost use Rattle.xs_raster.specs.declared.raster.TheConstants.{LONGEST_BLANK_SIDE};
ghost use Rattle.xs_bench.specs.Shows.{Shows};

use crate::fresh::{byte_count, zeros};
use std::alloc::Global;
use xs_base::Memory;
use xs_lanes::fill_row;
use xs_pixel::Pixel;
use xs_raster::Raster;
use xs_rect::Rect;

/// One pixel everywhere.
pub(crate) fn card(alloc: Global, pixel: Pixel, rect: Rect) -> Result<Raster, Memory>
    requires width { rect.w ≤ LONGEST_BLANK_SIDE }
    requires height { rect.h ≤ LONGEST_BLANK_SIDE }
    ensures { IfOk result (Shows rect (λ q. pixel)) }
{
    if pixel.m() == 0 {
        return Ok(Raster::blank(alloc, rect));
    }
    let mut bytes = zeros(alloc, byte_count(rect))?;
    fill_row(pixel, &mut bytes);
    Ok(Raster::from_bytes(rect, bytes))
}
