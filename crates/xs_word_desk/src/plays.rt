//! The kinds of steps, and what each tells its seat.
ghost use Rattle.std.specs.Prelude.{ℕ};
ghost use Rattle.xs_plan.specs.Record.{PlanRecord};
ghost use Rattle.xs_word_desk.specs.Changes.{no_plan};
ghost use Rattle.xs_word_desk.specs.Plays.{claimed, looked, recalled, took_out, finished, abandoned, turned, gave, retired, cleared};

use crate::view::View;
use atomic_table::Play;
use std::marker::{Brand, PhantomData};
use xs_pixel::Film;
use xs_raster::TileRef;

/// Wins an alias that is idle; else tells how it was found.
pub(crate) struct Claiming;

impl Play<Option<TileRef>, View> for Claiming {
    ghost then = { claimed };
}

/// Tells how an alias is found.
pub(crate) struct Looking;

impl Play<Option<TileRef>, View> for Looking {
    ghost then = { looked };
}

/// Tells only what the words and the slots tell of any seat.
pub(crate) struct Recalling;

impl Play<Option<TileRef>, View> for Recalling {
    ghost then = { recalled };
}

/// Takes out the empty slot of an alias that the seat has claimed.
pub(crate) struct TakingOut;

impl Play<Option<TileRef>, View> for TakingOut {
    ghost then = { took_out };
}

/// Gives the slot back with the tile.
pub(crate) struct Finishing;

impl Play<Option<TileRef>, View> for Finishing {
    ghost then = { finished };
}

/// Gives up an alias that the seat has claimed.
pub(crate) struct Abandoning;

impl Play<Option<TileRef>, View> for Abandoning {
    ghost then = { abandoned };
}

/// Names a read and its plan to the steps that are made for it. It has no functions: only contracts see its members.
pub(crate) trait ReadName {
    ghost read: { ℕ };

    ghost plan: { PlanRecord };
}

/// The name that a caller passes, who chooses its members from the arguments.
impl ReadName for Brand {
    ghost read = { 0 };

    ghost plan = { no_plan };
}

/// Takes out the tile of a read's source for the read, unless another seat has it in turn.
pub(crate) struct Turning<K: Film, E: ReadName>(PhantomData<(K, E)>);

impl<K: Film, E: ReadName> Play<Option<TileRef>, View> for Turning<K, E> {
    ghost then = { turned K.pictures E.plan E.read };
}

/// Gives the tile back that the seat has in turn.
pub(crate) struct Giving;

impl Play<Option<TileRef>, View> for Giving {
    ghost then = { gave };
}

/// Serves a read, and takes out the tile after the last one.
pub(crate) struct Retiring<E: ReadName>(PhantomData<E>);

impl<E: ReadName> Play<Option<TileRef>, View> for Retiring<E> {
    ghost then = { retired E.plan E.read };
}

/// Gives the slot back empty, after the last read.
pub(crate) struct Clearing;

impl Play<Option<TileRef>, View> for Clearing {
    ghost then = { cleared };
}
