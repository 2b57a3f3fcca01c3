//! What stays of spots, step by step.
#![tactic(auto, unfolding(crate::specs::Stays::by_stay))]

ghost use Rattle.std.specs.Prelude.{◌≡◌, ◌≤◌, ◌<◌, ◌-◌, All, IfOk, OnOk, length, map};
ghost use Rattle.xs_meaning.specs.Ends.{AllEnd};
ghost use Rattle.xs_meaning.specs.Walk.{composed_by};
ghost use Rattle.xs_step.specs.Spots.{input_spot};
ghost use Rattle.xs_step.specs.Steps.{AreThere, IsBounded};
ghost use Rattle.xs_step.specs.Ways.{LeadsTo, WaysEnd};
ghost use Rattle.xs_stays.specs.Found.{AreRight, IsFound, KeepsSets};
ghost use Rattle.xs_stays.specs.Stays.{by_stay, stay_at, stay_by};

use crate::drawing::{card_stay, drawing_stay};
use crate::found::{Found, Remembered};
use std::alloc::Global;
use xs_base::Memory;
use xs_check::GoodScene;
use xs_pixel::Op;
use xs_step::{Spot, Step, Terminals, input, step_at};

/// What stays of a spot, and None where it is clear; this is remembered. The ways from it have at most `left`
/// spots.
#[cycle(stay)]
pub fn stay(
    alloc: Global,
    s: &GoodScene,
    left: u32,
    spot: Spot,
    known: &mut Remembered,
) -> Result<Option<Found>, Memory>
    requires all_end { AllEnd s.now.sheets }
    requires there { spot.sheet < length s.now.sheets }
    requires ends { WaysEnd s.now left spot }
    requires known { AreRight s.now known.old }
    ensures found { IfOk result (λ found. IsFound known.new.sets.keys found (stay_at s.now spot)) }
    ensures known { OnOk result (AreRight s.now known.new) }
    ensures kept { OnOk result (KeepsSets known.old.sets.keys known.new.sets.keys) }
{
    if let Some(found) = known.find(spot) {
        return Ok(found);
    }
    let found = stay_by(alloc, s, left, spot, step_at(s, spot), known)?;
    known.note(spot, found)?;
    Ok(found)
}

/// What stays of a spot, by its step.
#[cycle(stay)]
fn stay_by(
    alloc: Global,
    s: &GoodScene,
    left: u32,
    spot: Spot,
    step: Step<'_>,
    known: &mut Remembered,
) -> Result<Option<Found>, Memory>
    requires all_end { AllEnd s.now.sheets }
    requires there { AreThere s.now spot step }
    requires bounded { IsBounded step }
    requires some_left { 1 ≤ left }
    requires ends { LeadsTo (WaysEnd s.now (left - 1)) spot step }
    requires known { AreRight s.now known.old }
    ensures found { IfOk result (λ found. IsFound known.new.sets.keys found (stay_by s.now spot step.entry)) }
    ensures known { OnOk result (AreRight s.now known.new) }
    ensures kept { OnOk result (KeepsSets known.old.sets.keys known.new.sets.keys) }
{
    match step {
        Step::Clear => Ok(None),
        Step::Drawing { level, index, .. } => {
            let d = s.number(level, index);
            Ok(Some(drawing_stay(alloc, s, d, spot.row, known)?))
        }
        Step::Card(style) => Ok(card_stay(alloc, style, known)?),
        Step::Nested { row: next, .. } | Step::Same(next) | Step::Blur(_, next) => {
            stay(alloc, s, left - 1, next, known)
        }
        Step::Keep(next, styles) => {
            let found = stay(alloc, s, left - 1, next, known)?;
            Ok(known.filtered(alloc, true, styles.items(), found)?)
        }
        Step::Delete(next, styles) => {
            let found = stay(alloc, s, left - 1, next, known)?;
            Ok(known.filtered(alloc, false, styles.items(), found)?)
        }
        Step::Pair(op, first, second) => {
            let first = stay(alloc, s, left - 1, first, known)?;
            let second = stay(alloc, s, left - 1, second, known)?;
            Ok(known.pair(alloc, op, first, second)?)
        }
        Step::Over(terminals) => over_stay(alloc, s, left - 1, spot, terminals, known),
    }
}

/// What stays of columns and nodes of a sheet that are laid over one another.
#[cycle(stay)]
fn over_stay(
    alloc: Global,
    s: &GoodScene,
    left: u32,
    spot: Spot,
    terminals: Terminals<'_>,
    known: &mut Remembered,
) -> Result<Option<Found>, Memory>
    requires all_end { AllEnd s.now.sheets }
    requires there { spot.sheet < length s.now.sheets }
    requires ends { All (λ t. WaysEnd s.now left (input_spot spot.sheet t spot.row)) terminals }
    requires known { AreRight s.now known.old }
    ensures found { IfOk result (λ found. IsFound known.new.sets.keys found
        (composed_by (by_stay s.now) (map (λ t. stay_at s.now (input_spot spot.sheet t spot.row)) terminals.entry))) }
    ensures known { OnOk result (AreRight s.now known.new) }
    ensures kept { OnOk result (KeepsSets known.old.sets.keys known.new.sets.keys) }
{
    let mut rest = terminals;
    let mut below = None;
    while let Some((terminal, above)) = rest.split_first() {
        let at = input(spot.sheet, terminal, spot.row);
        let here = stay(alloc, s, left, at, known)?;
        below = known.pair(alloc, Op::Over, here, below)?;
        rest = above;
    }
    Ok(below)
}
