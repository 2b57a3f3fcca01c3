//! Which inputs of a pair stay where some are clear.

ghost use Rattle.std.specs.Prelude.{◌≡◌};
ghost use Rattle.xs_meaning.specs.Expressions.{staying as staying_of};
ghost use Rattle.xs_build.specs.Pairs.{stays_as};

use xs_meaning::pairs::{first_stays_alone, second_stays_alone};
use xs_pixel::Op;

/// The inputs of a pair that stay.
#[derive(Clone, Copy, Debug, PartialEq, Eq)]
pub(crate) enum Stays {
    Both,
    First,
    Second,
    Neither,
}

/// What stays of a pair, where it is known which of its inputs are clear.
pub(crate) fn staying(op: Op, first_clear: bool, second_clear: bool) -> Stays
    ensures { result ≡ stays_as (staying_of op first_clear second_clear) }
{
    if first_clear {
        if second_stays_alone(op) {
            Stays::Second
        } else {
            Stays::Neither
        }
    } else if second_clear {
        if first_stays_alone(op) {
            Stays::First
        } else {
            Stays::Neither
        }
    } else {
        Stays::Both
    }
}
