//! An operation on the pixels of two rasters.

ghost use Rattle.std.specs.Prelude.{◌≡◌, ◌≤◌, true, false, IfOk};
ghost use Rattle.xs_pixel.specs.Channels.{Channels, IsPixel, clear};
ghost use Rattle.xs_pixel.specs.Operations.{apply_of};
ghost use Rattle.xs_raster.specs.declared.raster.TheConstants.{LONGEST_BLANK_SIDE};
ghost use Rattle.xs_bench.specs.Inputs.{raster_image};
ghost use Rattle.xs_bench.specs.Shows.{Shows};

use crate::fresh::{byte_count, zeros};
use std::alloc::Global;
use xs_base::Memory;
use xs_lanes::op_row;
use xs_pixel::Op;
use xs_pixel::laws::{clear_input_clears, clear_input_vanishes};
use xs_raster::Raster;

/// The operation on the pixels of two rasters. Where one of them is known to be clear, the result is the other
/// one or clear, and no pixel is computed.
pub(crate) fn pair(alloc: Global, op: Op, first: &Raster, second: &Raster) -> Result<Raster, Memory>
    requires { second.now.area ≡ first.now.area }
    ensures { IfOk result (Shows first.now.area
        (λ q. apply_of op (raster_image first.now q) (raster_image second.now q))) }
{
    if !first.has_bytes() {
        return under_clear(alloc, op, second);
    }
    if !second.has_bytes() {
        return over_clear(alloc, op, first);
    }
    composed(alloc, op, first, second)
}

/// The operation on clear pixels and those of a raster.
fn under_clear(alloc: Global, op: Op, second: &Raster) -> Result<Raster, Memory>
    requires width { second.now.area.w ≤ LONGEST_BLANK_SIDE }
    requires height { second.now.area.h ≤ LONGEST_BLANK_SIDE }
    ensures { IfOk result (Shows second.now.area (λ q. apply_of op clear (raster_image second.now q))) }
{
    // all of its pixels are premultiplied
    let rect = second.rect();
    if keeps_second(op) {
        return second.copy(alloc);
    }
    Ok(Raster::blank(alloc, rect))
}

/// The operation on the pixels of a raster and clear ones.
fn over_clear(alloc: Global, op: Op, first: &Raster) -> Result<Raster, Memory>
    requires width { first.now.area.w ≤ LONGEST_BLANK_SIDE }
    requires height { first.now.area.h ≤ LONGEST_BLANK_SIDE }
    ensures { IfOk result (Shows first.now.area (λ q. apply_of op (raster_image first.now q) clear)) }
{
    // all of its pixels are premultiplied
    let rect = first.rect();
    if keeps_first(op) {
        return first.copy(alloc);
    }
    Ok(Raster::blank(alloc, rect))
}

/// Whether the operation on a clear pixel and another leaves the other one; else the result is clear.
fn keeps_second(op: Op) -> bool
    ensures kept { result ≡ true → (p : Channels) → IsPixel p → apply_of op clear p ≡ p }
    ensures cleared { result ≡ false → (p : Channels) → apply_of op clear p ≡ clear }
{
    clear_input_vanishes();
    clear_input_clears();
    match op {
        Op::Over => true,
        Op::Add => true,
        Op::Sub => true,
        Op::Mult => false,
        Op::Min => false,
        Op::Max => true,
        Op::MatteIn => false,
        Op::MatteOut => false,
    }
}

/// Whether the operation on a pixel and a clear one leaves the pixel; else the result is clear.
fn keeps_first(op: Op) -> bool
    ensures kept { result ≡ true → (p : Channels) → IsPixel p → apply_of op p clear ≡ p }
    ensures cleared { result ≡ false → (p : Channels) → apply_of op p clear ≡ clear }
{
    clear_input_vanishes();
    clear_input_clears();
    match op {
        Op::Over => true,
        Op::Add => true,
        Op::Sub => false,
        Op::Mult => false,
        Op::Min => false,
        Op::Max => true,
        Op::MatteIn => false,
        Op::MatteOut => true,
    }
}

/// The operation on the pixels of two rasters with bytes.
fn composed(alloc: Global, op: Op, first: &Raster, second: &Raster) -> Result<Raster, Memory>
    requires same { second.now.area ≡ first.now.area }
    requires first { first.now.has_bytes ≡ true }
    requires second { second.now.has_bytes ≡ true }
    ensures { IfOk result (Shows first.now.area
        (λ q. apply_of op (raster_image first.now q) (raster_image second.now q))) }
{
    let rect = first.rect();
    second.rect();
    let mut bytes = zeros(alloc, byte_count(rect))?;
    op_row(op, first.bytes(), second.bytes(), &mut bytes);
    Ok(Raster::from_bytes(rect, bytes))
}
