//! The drawings of a section.

ghost use Rattle.std.specs.Prelude.{◌≡◌, ◌<◌, ◌+◌, length, OnOk};
ghost use Rattle.xs_check.specs.Good.{files_of};
ghost use Rattle.xs_plan.specs.Sections.{sections_in};
ghost use Rattle.xs_plan.specs.Needed.{new_drawings, held};
ghost use Rattle.xs_levels.specs.Films.{film_of};
ghost use Rattle.xs_levels.specs.Stocked.{IsStock, Holds};
ghost use Rattle.xs_levels.specs.Table.{table_of};
ghost use Rattle.xs_top.specs.declared.limits.TheConstants.{MOST_SECTION_BYTES};
ghost use Rattle.xs_top.specs.Causes.{answer_of, Fails};
ghost use Rattle.xs_top.specs.Leaves.{Keeps};
ghost use Rattle.xs_top.specs.Runs.{Does};
ghost use Rattle.xs_top.specs.Outcome.{loading};

use crate::limits::MOST_SECTION_BYTES;
use crate::outside::Outside;
use crate::status::Status;
use std::alloc::Global;
use xs_check::GoodScene;
use xs_dryrun::What;
use xs_levels::{Loaded, Stock, a_scene_tells_its_drawings};
use xs_pixel::Film;
use xs_plan::Plan;

/// Loads the drawings of a scene that a section of a plan is the first to need.
pub(crate) fn load_section<K: Film, O: Outside>(
    alloc: Global,
    good: &GoodScene,
    p: &Plan,
    s: u32,
    stock: &mut Stock<K>,
    outside: &mut O,
) -> Result<(), Status>
    requires section { s < sections_in p.now }
    requires next { stock.old.loaded ≡ s }
    requires ended { stock.old.ended ≡ s }
    requires drawings { p.now.drawings ≡ length (files_of good.now.levels) }
    requires stock { IsStock p.now (table_of good.now) stock.old }
    requires limit { stock.old.limit ≡ MOST_SECTION_BYTES }
    requires film { K.pictures ≡ film_of (O.view outside.old).seen.files (table_of good.now) }
    ensures did { Does (λ files. loading files good.now stock.old.bytes (new_drawings p.now s))
        (O.view outside.old) (O.view outside.new) result }
    ensures stock { OnOk result (IsStock p.now (table_of good.now) stock.new) }
    ensures sections { OnOk result ((stock.new.loaded ≡ s + 1) × (stock.new.ended ≡ s)) }
    ensures holds { OnOk result (Holds stock.new.held (held p.now s)) }
    ensures limit { OnOk result (stock.new.limit ≡ MOST_SECTION_BYTES) }
    ensures keeps { Keeps (O.view outside.old) (O.view outside.new) (answer_of result) }
    ensures fails { Fails result }
{
    a_scene_tells_its_drawings();
    match outside.load(alloc, stock, good, p, s) {
        Loaded::Done => Ok(()),
        Loaded::Level {
            at: _,
            drawing,
            code,
        } => Err(Status::Level { drawing, code }),
        Loaded::Limit { at: _, drawing: _ } => Err(Status::Limit {
            what: What::SectionBytes,
            limit: MOST_SECTION_BYTES,
        }),
        Loaded::ReadFault { at: _ } => Err(Status::ReadFault),
        Loaded::Memory { at: _ } => Err(Status::Memory),
    }
}
