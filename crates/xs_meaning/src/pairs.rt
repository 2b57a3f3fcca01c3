//! Which input of a pair stays where the other one is clear.

ghost use Rattle.std.specs.Prelude.{◌≡◌, if◌then◌else◌};
ghost use Rattle.xs_meaning.specs.Expressions.{First, Second, Neither, with_clear_first, with_clear_second};

use xs_pixel::Op;

/// Whether the second input of a pair stays where the first is clear.
pub fn second_stays_alone(op: Op) -> bool
    ensures { with_clear_first op ≡ (if result then Second else Neither) }
{
    match op {
        Op::Over | Op::Add | Op::Sub | Op::Max => true,
        Op::Mult | Op::Min | Op::MatteIn | Op::MatteOut => false,
    }
}

/// Whether the first input of a pair stays where only the second is clear.
pub fn first_stays_alone(op: Op) -> bool
    ensures { with_clear_second op ≡ (if result then First else Neither) }
{
    match op {
        Op::Over | Op::Add | Op::Max | Op::MatteOut => true,
        Op::Sub | Op::Mult | Op::Min | Op::MatteIn => false,
    }
}
