ghost use Rattle.xs_word_desk.specs.Traced.{Traced};
ghost use Rattle.xs_word_desk.specs.Changes.{first_view};

use crate::view::View;
use atomic_table::TableRule;
use std::marker::PhantomData;
use xs_pixel::Film;
use xs_plan::Plan;
use xs_raster::TileRef;

/// What holds of a cache between any two steps, under the pictures of a film: its words, slots and views agree, and the
/// state that they show is one of a run of the core from its start.
#[derive(Clone, Copy)]
pub struct Rule<K: Film>(PhantomData<K>);

impl<K: Film> TableRule<Option<TileRef>, View, Plan> for Rule<K> {
    ghost holds = { Traced K.pictures };

    ghost first = { first_view };
}
