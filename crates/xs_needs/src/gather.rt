//! The drawings of a spot, gathered in the order of the walk. Each spot is gone through once.

ghost use Rattle.std.specs.Prelude.{◌≡◌, ◌≤◌, ◌<◌, ◌-◌, [], All, OnOk, IsTrue, length, if◌then◌else◌};
ghost use Rattle.indexmap.specs.IndexSet.{contains};
ghost use Rattle.xs_meaning.specs.Ends.{AllEnd};
ghost use Rattle.xs_meaning.specs.Expressions.{staying as staying_of};
ghost use Rattle.xs_needs.specs.Found.{IsKept, IsSound};
ghost use Rattle.xs_base.specs.Once.{with_each};
ghost use Rattle.xs_step.specs.Spots.{same_spot};
ghost use Rattle.xs_needs.specs.Shown.{drawings_at, drawings_in, drawings_over, is_clear_at, showing_by, showing_staying, shown};
ghost use Rattle.xs_step.specs.Spots.{input_spot};
ghost use Rattle.xs_step.specs.Steps.{AreThere};
ghost use Rattle.xs_step.specs.Ways.{LeadsTo, WaysEnd};

use crate::clear::is_clear;
use crate::found::Found;
use crate::pairs::staying;
use std::alloc::Global;
use xs_base::Memory;
use xs_base::laws::each_number_is_taken_once;
use xs_check::GoodScene;
use xs_pixel::Op;
use xs_step::{Spot, Step, Terminals, input, step_at};

/// Gathers the drawings of a spot, and remembers that they are gathered. The ways from it have at most
/// `left` spots.
#[cycle(gather)]
pub fn gather(
    alloc: Global,
    s: &GoodScene,
    left: u32,
    spot: Spot,
    found: &mut Found,
) -> Result<(), Memory>
    requires all_end { AllEnd s.now.sheets }
    requires there { spot.sheet < length s.now.sheets }
    requires ends { WaysEnd s.now left spot }
    requires sound { IsSound s.now found.old }
    ensures drawings { OnOk result (found.new.gathered.drawings.keys
        ≡ with_each found.old.gathered.drawings.keys (drawings_at s.now spot)) }
    ensures sound { OnOk result (IsSound s.now found.new) }
    ensures kept { OnOk result (IsKept found.old found.new) }
    ensures noted { OnOk result (IsTrue (contains same_spot found.new.gathered.whole spot)) }
{
    each_number_is_taken_once();
    if found.gathered.has_all_of(spot) {
        return Ok(());
    }
    gather_by(alloc, s, left, spot, step_at(s, spot), found)?;
    found.gathered.note(spot)
}

/// Gathers the drawings of a spot, by its step.
#[cycle(gather)]
fn gather_by(
    alloc: Global,
    s: &GoodScene,
    left: u32,
    spot: Spot,
    step: Step<'_>,
    found: &mut Found,
) -> Result<(), Memory>
    requires all_end { AllEnd s.now.sheets }
    requires there { AreThere s.now spot step }
    requires some_left { 1 ≤ left }
    requires ends { LeadsTo (WaysEnd s.now (left - 1)) spot step }
    requires sound { IsSound s.now found.old }
    ensures drawings { OnOk result (found.new.gathered.drawings.keys
        ≡ with_each found.old.gathered.drawings.keys
        (drawings_in (showing_by s.now (shown s.now) spot step.entry))) }
    ensures sound { OnOk result (IsSound s.now found.new) }
    ensures kept { OnOk result (IsKept found.old found.new) }
{
    match step {
        Step::Clear | Step::Card(_) => Ok(()),
        Step::Drawing { level, index, .. } => {
            each_number_is_taken_once();
            found.gathered.add(s.number(level, index))
        }
        Step::Nested { row: next, .. }
        | Step::Same(next)
        | Step::Keep(next, _)
        | Step::Delete(next, _)
        | Step::Blur(_, next) => { gather(alloc, s, left - 1, next, found) }
        Step::Pair(op, first, second) => {
            gather_pair(alloc, s, left - 1, op, (first, second), found)
        }
        Step::Over(terminals) => gather_over(alloc, s, left - 1, spot, terminals, found),
    }
}

/// Gathers the drawings of the inputs of a pair that stay, those of the first before those of the second.
#[cycle(gather)]
fn gather_pair(
    alloc: Global,
    s: &GoodScene,
    left: u32,
    op: Op,
    inputs: (Spot, Spot),
    found: &mut Found,
) -> Result<(), Memory>
    requires all_end { AllEnd s.now.sheets }
    requires there_first { inputs.0.sheet < length s.now.sheets }
    requires there_second { inputs.1.sheet < length s.now.sheets }
    requires ends_first { WaysEnd s.now left inputs.0 }
    requires ends_second { WaysEnd s.now left inputs.1 }
    requires sound { IsSound s.now found.old }
    ensures drawings { OnOk result (found.new.gathered.drawings.keys
        ≡ with_each found.old.gathered.drawings.keys
        (drawings_in (showing_staying (staying_of op (is_clear_at s.now inputs.0) (is_clear_at s.now inputs.1))
        (shown s.now inputs.0) (shown s.now inputs.1)))) }
    ensures sound { OnOk result (IsSound s.now found.new) }
    ensures kept { OnOk result (IsKept found.old found.new) }
{
    each_number_is_taken_once();
    let (first, second) = inputs;
    let first_clear = is_clear(alloc, s, left, first, &mut found.known)?;
    let second_clear = is_clear(alloc, s, left, second, &mut found.known)?;
    let (first_stays, second_stays) = staying(op, first_clear, second_clear);
    gather_if(alloc, s, left, first_stays, first, found)?;
    gather_if(alloc, s, left, second_stays, second, found)
}

/// Gathers the drawings of a spot that is wanted.
#[cycle(gather)]
fn gather_if(
    alloc: Global,
    s: &GoodScene,
    left: u32,
    wanted: bool,
    spot: Spot,
    found: &mut Found,
) -> Result<(), Memory>
    requires all_end { AllEnd s.now.sheets }
    requires there { spot.sheet < length s.now.sheets }
    requires ends { WaysEnd s.now left spot }
    requires sound { IsSound s.now found.old }
    ensures drawings { OnOk result (found.new.gathered.drawings.keys
        ≡ with_each found.old.gathered.drawings.keys (if wanted then drawings_at s.now spot else [])) }
    ensures sound { OnOk result (IsSound s.now found.new) }
    ensures kept { OnOk result (IsKept found.old found.new) }
{
    if wanted {
        gather(alloc, s, left, spot, found)
    } else {
        Ok(())
    }
}

/// Gathers the drawings of columns and nodes of a sheet at a row, those of the last, which is the
/// topmost, first.
#[cycle(gather)]
fn gather_over(
    alloc: Global,
    s: &GoodScene,
    left: u32,
    spot: Spot,
    terminals: Terminals<'_>,
    found: &mut Found,
) -> Result<(), Memory>
    requires all_end { AllEnd s.now.sheets }
    requires there { spot.sheet < length s.now.sheets }
    requires ends { All (λ t. WaysEnd s.now left (input_spot spot.sheet t spot.row)) terminals }
    requires sound { IsSound s.now found.old }
    ensures drawings { OnOk result (found.new.gathered.drawings.keys
        ≡ with_each found.old.gathered.drawings.keys
        (drawings_over (λ t. shown s.now (input_spot spot.sheet t spot.row)) terminals.entry)) }
    ensures sound { OnOk result (IsSound s.now found.new) }
    ensures kept { OnOk result (IsKept found.old found.new) }
{
    each_number_is_taken_once();
    let mut rest = terminals;
    while let Some((terminal, below)) = rest.split_last() {
        let at = input(spot.sheet, terminal, spot.row);
        gather(alloc, s, left, at, found)?;
        rest = below;
    }
    Ok(())
}
