//! How far spots look, step by step.
#![tactic(auto, unfolding(xs_meaning::specs::Extents::by_extent))]

ghost use Rattle.std.specs.Prelude.{◌≡◌, ◌≤◌, ◌<◌, ◌-◌, All, IfOk, OnOk, is_none, length, map};
ghost use Rattle.xs_meaning.specs.Ends.{AllEnd};
ghost use Rattle.xs_meaning.specs.Expressions.{staying};
ghost use Rattle.xs_meaning.specs.Extents.{extent_staying, by_extent, wider};
ghost use Rattle.xs_meaning.specs.Walk.{composed_by};
ghost use Rattle.xs_step.specs.Spots.{input_spot};
ghost use Rattle.xs_step.specs.Steps.{AreThere};
ghost use Rattle.xs_step.specs.Ways.{LeadsTo, WaysEnd};
ghost use Rattle.xs_extent.specs.Extent.{extent_at, extent_by, AreRight};

use crate::extents::Extents;
use std::alloc::Global;
use xs_base::Memory;
use xs_check::GoodScene;
use xs_meaning::pairs::{first_stays_alone, second_stays_alone};
use xs_pixel::{Op, Style};
use xs_step::{Spot, Step, Terminals, input, step_at};

/// How far a spot looks beyond a point, in pixels, and None where it is clear; this is remembered. The ways
/// from it have at most `left` spots.
#[cycle(extent)]
pub fn extent(
    alloc: Global,
    s: &GoodScene,
    left: u32,
    spot: Spot,
    known: &mut Extents,
) -> Result<Option<u32>, Memory>
    requires all_end { AllEnd s.now.sheets }
    requires there { spot.sheet < length s.now.sheets }
    requires ends { WaysEnd s.now left spot }
    requires known { AreRight s.now known.old }
    ensures extent { IfOk result (λ extent. extent ≡ extent_at s.now spot) }
    ensures known { OnOk result (AreRight s.now known.new) }
{
    if let Some(extent) = known.find(spot) {
        return Ok(extent);
    }
    let extent = extent_by(alloc, s, left, spot, step_at(s, spot), known)?;
    known.note(spot, extent)?;
    Ok(extent)
}

/// How far a spot looks, by its step.
#[cycle(extent)]
fn extent_by(
    alloc: Global,
    s: &GoodScene,
    left: u32,
    spot: Spot,
    step: Step<'_>,
    known: &mut Extents,
) -> Result<Option<u32>, Memory>
    requires all_end { AllEnd s.now.sheets }
    requires there { AreThere s.now spot step }
    requires some_left { 1 ≤ left }
    requires ends { LeadsTo (WaysEnd s.now (left - 1)) spot step }
    requires known { AreRight s.now known.old }
    ensures extent { IfOk result (λ extent. extent ≡ extent_by s.now spot step.entry) }
    ensures known { OnOk result (AreRight s.now known.new) }
{
    match step {
        Step::Clear => Ok(None),
        Step::Drawing { .. } => Ok(Some(0)),
        Step::Card(style) => Ok(card_extent(style)),
        Step::Nested { row: next, .. }
        | Step::Same(next)
        | Step::Keep(next, _)
        | Step::Delete(next, _) => { extent(alloc, s, left - 1, next, known) }
        Step::Blur(radius, next) => {
            let input = extent(alloc, s, left - 1, next, known)?;
            Ok(blurred_extent(radius, input)?)
        }
        Step::Pair(op, first, second) => {
            let first = extent(alloc, s, left - 1, first, known)?;
            let second = extent(alloc, s, left - 1, second, known)?;
            Ok(pair_extent(op, first, second))
        }
        Step::Over(terminals) => over_extent(alloc, s, left - 1, spot, terminals, known),
    }
}

/// How far a card looks: nowhere, and it may be clear.
fn card_extent(style: Style) -> Option<u32>
    ensures { result ≡ by_extent.card style }
{
    let pixel = style.pixel();
    if pixel.r() == 0 && pixel.g() == 0 && pixel.b() == 0 && pixel.m() == 0 {
        None
    } else {
        Some(0)
    }
}

/// How far a blur looks.
fn blurred_extent(radius: u32, input: Option<u32>) -> Result<Option<u32>, Memory>
    ensures { IfOk result (λ extent. extent ≡ wider radius input) }
{
    match input {
        None => Ok(None),
        // as many blurs as it takes to pass the greatest number are no scene's
        Some(extent) => match radius.checked_add(extent) {
            Some(sum) => Ok(Some(sum)),
            None => Err(Memory),
        },
    }
}

/// How far a pair looks: the farther of its inputs, or the one that stays.
fn pair_extent(op: Op, first: Option<u32>, second: Option<u32>) -> Option<u32>
    ensures { result ≡ extent_staying (staying op (is_none first) (is_none second)) first second }
{
    match (first, second) {
        (Some(first), Some(second)) => Some(first.max(second)),
        (None, _) => { if second_stays_alone(op) { second } else { None } }
        (Some(_), None) => { if first_stays_alone(op) { first } else { None } }
    }
}

/// How far columns and nodes of a sheet look that are laid over one another.
#[cycle(extent)]
fn over_extent(
    alloc: Global,
    s: &GoodScene,
    left: u32,
    spot: Spot,
    terminals: Terminals<'_>,
    known: &mut Extents,
) -> Result<Option<u32>, Memory>
    requires all_end { AllEnd s.now.sheets }
    requires there { spot.sheet < length s.now.sheets }
    requires ends { All (λ t. WaysEnd s.now left (input_spot spot.sheet t spot.row)) terminals }
    requires known { AreRight s.now known.old }
    ensures extent { IfOk result (λ extent. extent
        ≡ composed_by by_extent (map (λ t. extent_at s.now (input_spot spot.sheet t spot.row)) terminals.entry)) }
    ensures known { OnOk result (AreRight s.now known.new) }
{
    let mut rest = terminals;
    let mut below = None;
    while let Some((terminal, above)) = rest.split_first() {
        let at = input(spot.sheet, terminal, spot.row);
        let here = extent(alloc, s, left, at, known)?;
        below = pair_extent(Op::Over, here, below);
        rest = above;
    }
    Ok(below)
}
