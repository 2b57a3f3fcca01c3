//! The table of a plan before any step.
ghost use Rattle.std.specs.Prelude.{◌≡◌, [], IfOk, length};
ghost use Rattle.xs_word_desk.specs.Changes.{first_view};

use crate::rule::Rule;
use crate::steps::Seat;
use crate::view::View;
use crate::words::UNCLAIMED;
use std::alloc::Global;
use xs_base::Memory;
use xs_pixel::Film;
use xs_plan::Plan;
use xs_raster::TileRef;

pub(crate) type Table<K> = atomic_table::Table<Option<TileRef>, View, Plan, Rule<K>, Global>;

/// The table of a plan, with a word and an empty slot for each alias, and the seat of the chief, who is alone.
pub(crate) fn open_table<K: Film>(alloc: Global, p: &Plan) -> Result<(Table<K>, Seat), Memory>
    ensures counts { IfOk result (λ t. (t.0.shared.table_id.words ≡ length p.now.entries)
        × (t.0.shared.table_id.slots ≡ length p.now.entries)) }
    ensures plan { IfOk result (λ t. t.0.shared.key ≡ p.now) }
    ensures seat { IfOk result (λ t. (t.1.table_id ≡ t.0.shared.table_id) × (t.1.me ≡ (first_view p.now, []))) }
{
    let aliases = p.aliases() as usize;
    let words = vec![in alloc; UNCLAIMED; aliases]?;
    Ok(Table::vacant(alloc, &words, aliases, p)?)
}
