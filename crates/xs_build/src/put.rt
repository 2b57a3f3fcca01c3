//! One expression more, as long as there may be more.

ghost use Rattle.std.specs.Prelude.{◌≡◌, ◌<◌, ◌≤◌, ◌+◌, ◌^◌, OnOk, All, IsErrOf, length, map};
ghost use Rattle.xs_meaning.specs.Expressions.{Card, Clear, Pair, Blur};
ghost use Rattle.xs_meaning.specs.Palettes.{pixel_of};
ghost use Rattle.xs_demand.specs.Blocks.{spread};
ghost use Rattle.xs_build.specs.States.{expr_at, IsAt, GivesPut, LaysOver};

use crate::stop::Stop;
use xs_entered::Entered;
use xs_pixel::{Op, Style};

/// Whether one more may be entered.
pub(crate) fn room(entered: &Entered, most: u32) -> Result<(), Stop>
    ensures few { OnOk result (length entered.now ≤ most) }
    ensures full { IsErrOf result Stop.Full → most < length entered.now }
{
    if entered.len() > most {
        return Err(Stop::Full);
    }
    Ok(())
}

/// Enters nothing.
pub(crate) fn put_clear(most: u32, growth: u32, entered: &mut Entered) -> Result<u32, Stop>
    requires { most < 2 ^ 30 }
    ensures { GivesPut most entered.old entered.new (spread Clear growth) result }
{
    room(entered, most)?;
    Ok(entered.clear(growth)?)
}

/// Enters the pixel of a style, everywhere.
pub(crate) fn put_card(
    most: u32,
    style: Style,
    growth: u32,
    entered: &mut Entered,
) -> Result<u32, Stop>
    requires { most < 2 ^ 30 }
    ensures { GivesPut most entered.old entered.new (spread (Card (pixel_of style)) growth) result }
{
    room(entered, most)?;
    Ok(entered.card(style.pixel(), growth)?)
}

/// Enters an operation of two that were entered.
pub(crate) fn put_pair(
    most: u32,
    op: Op,
    inputs: (u32, u32),
    growth: u32,
    entered: &mut Entered,
) -> Result<u32, Stop>
    requires most { most < 2 ^ 30 }
    requires first { IsAt entered.old growth inputs.0 }
    requires second { IsAt entered.old growth inputs.1 }
    ensures { GivesPut most entered.old entered.new
        (spread (Pair op (expr_at entered.old inputs.0) (expr_at entered.old inputs.1)) growth) result }
{
    room(entered, most)?;
    Ok(entered.pair(op, inputs.0, inputs.1, growth)?)
}

/// Enters the blur of one that was entered.
pub(crate) fn put_blur(
    most: u32,
    radius: u32,
    input: u32,
    growth: u32,
    entered: &mut Entered,
) -> Result<u32, Stop>
    requires most { most < 2 ^ 30 }
    requires input { IsAt entered.old (growth + radius) input }
    ensures { GivesPut most entered.old entered.new (spread (Blur radius (expr_at entered.old input)) growth) result }
{
    room(entered, most)?;
    Ok(entered.blur(radius, input, growth)?)
}

/// Puts some that were entered, from the topmost one down, over a lowest one.
pub(crate) fn put_each_over(
    most: u32,
    mut upper: Vec<u32>,
    lowest: u32,
    growth: u32,
    entered: &mut Entered,
) -> Result<u32, Stop>
    requires most { most < 2 ^ 30 }
    requires lowest { IsAt entered.old growth lowest }
    requires upper { All (IsAt entered.old growth) upper.items }
    ensures { LaysOver most entered.old entered.new
        (map (expr_at entered.old) upper.items) (expr_at entered.old lowest) growth result }
{
    let mut whole = lowest;
    while let Some(over) = upper.pop() {
        whole = put_pair(most, Op::Over, (over, whole), growth, entered)?;
    }
    Ok(whole)
}
