//! The pixels of an alias, all at once.

ghost use Rattle.std.specs.Prelude.{◌≡◌, ◌<◌, IfOk, length, option_map};
ghost use Rattle.xs_plan.specs.Record.{entry_at};
ghost use Rattle.xs_bench.specs.Inputs.{HasDrawing, HasInputs, made_image};
ghost use Rattle.xs_bench.specs.Shows.{Shows};

use crate::card::card;
use crate::input::pixels_of;
use crate::leaf::{leaf, tinted};
use crate::offset::Offset;
use crate::pair::pair;
use std::alloc::Global;
use xs_base::Memory;
use xs_blur::blur;
use xs_pixel::Film;
use xs_plan::{Job, Plan};
use xs_raster::{Raster, Tile};
use xs_rawfile::Drawings;

/// The pixels of an alias. The words of a drawing are copied into `scratch`, whatever that holds.
pub(crate) fn raster<K: Film>(
    scratch: &mut Vec<u8>,
    alloc: Global,
    p: &Plan,
    k: u32,
    a: Option<&Tile>,
    b: Option<&Tile>,
    d: &Drawings<K>,
) -> Result<Raster, Memory>
    requires there { k < length p.now.entries }
    requires inputs { HasInputs (entry_at p.now.entries k).job (entry_at p.now.entries k).rect
        (option_map (λ t. t.now) a) (option_map (λ t. t.now) b) }
    requires drawing { HasDrawing d.now (entry_at p.now.entries k).job }
    ensures { IfOk result (Shows (entry_at p.now.entries k).rect
        (made_image d.now p.now k (option_map (λ t. t.now) a.entry) (option_map (λ t. t.now) b.entry))) }
{
    // what may be relied on in a plan
    p.aliases();
    let rect = p.rect(k);
    match p.job(k) {
        Job::Clear => Ok(Raster::blank(alloc, rect)),
        Job::Leaf { drawing, dx, dy } => {
            leaf(scratch, alloc, rect, d, drawing, Offset { x: dx, y: dy })
        }
        Job::Tinted {
            drawing,
            dx,
            dy,
            tint,
        } => {
            let to = Offset { x: dx, y: dy };
            tinted(scratch, alloc, rect, d, drawing, to, p.tint(tint))
        }
        Job::Card(pixel) => card(alloc, pixel, rect),
        Job::Pair(op) => pair(alloc, op, pixels_of(a), pixels_of(b)),
        Job::Blur(radius) => blur(alloc, pixels_of(a), radius, rect),
    }
}
