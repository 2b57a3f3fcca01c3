//! Which inputs of a pair stay where some are clear.

ghost use Rattle.std.specs.Prelude.{◌≡◌};
ghost use Rattle.xs_meaning.specs.Expressions.{staying as staying_of};
ghost use Rattle.xs_needs.specs.Shown.{first_stays, second_stays, is_clear_pair};

use xs_meaning::pairs::{first_stays_alone, second_stays_alone};
use xs_pixel::Op;

/// Whether the first input of a pair stays, and whether the second does, where it is known which of them
/// are clear.
pub fn staying(op: Op, first_clear: bool, second_clear: bool) -> (bool, bool)
    ensures first { result.0 ≡ first_stays (staying_of op first_clear second_clear) }
    ensures second { result.1 ≡ second_stays (staying_of op first_clear second_clear) }
{
    if first_clear {
        (false, second_stays_alone(op))
    } else if second_clear {
        (first_stays_alone(op), false)
    } else {
        (true, true)
    }
}

/// Whether a pair is clear: each input that stays is.
pub fn pair_is_clear(op: Op, first_clear: bool, second_clear: bool) -> bool
    ensures { result ≡ is_clear_pair op first_clear second_clear }
{
    let (first, second) = staying(op, first_clear, second_clear);
    (!first || first_clear) && (!second || second_clear)
}
