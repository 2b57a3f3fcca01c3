//! What an area shares with the box of a drawing that is moved.

ghost use Rattle.std.specs.Prelude.{◌≡◌, ◌*◌, IfNone, IfSome, replicate};
ghost use Rattle.xs_pixel.specs.Points.{Point, point};
ghost use Rattle.xs_bench.specs.Cells.{HoldBytes, IsOverlap, LiesApart};

use crate::copying::copy_rows;
use crate::offset::Offset;
use crate::shared::{Shared, shared_by};
use xs_rawfile::Drawing;
use xs_rect::Rect;

/// The places that are shared along both axes.
#[derive(Clone, Copy)]
pub(crate) struct Overlap {
    pub(crate) across: Shared,
    pub(crate) up: Shared,
}

/// What an area shares with the box of a drawing that is moved; None exactly where they share no point.
pub(crate) fn overlap_of(rect: Rect, g: &Drawing, to: Offset) -> Option<Overlap>
    ensures some { IfSome result (IsOverlap rect g.now (point to.x to.y)) }
    ensures none { IfNone result (LiesApart rect g.now (point to.x to.y)) }
{
    let across = shared_by(rect.x(), rect.w(), g.x0() + to.x, g.w());
    if across.len == 0 {
        return None;
    }
    let up = shared_by(rect.y(), rect.h(), g.y0() + to.y, g.h());
    if up.len == 0 {
        return None;
    }
    Some(Overlap { across, up })
}

/// Copies the bytes that an area shares with a drawing into those of the area, which are 0.
pub(crate) fn copy_box(bytes: &mut [u8], rect: Rect, g: &Drawing, o: Overlap)
    requires clear { bytes.old ≡ replicate (4 * (rect.w * rect.h)) 0 }
    requires overlap { (to : Point) × IsOverlap rect g.now to o }
    ensures { (to : Point) → IsOverlap rect g.now to o → HoldBytes rect g.now to bytes.new }
{
    let wide = 4 * rect.w() as usize;
    let from_wide = 4 * g.w() as usize;
    let across = Shared {
        at: 4 * o.across.at,
        from: 4 * o.across.from,
        len: 4 * o.across.len,
    };
    copy_rows(bytes, wide, g.bytes(), from_wide, across, o.up);
}
