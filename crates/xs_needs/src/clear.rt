//! Whether a spot is clear. Each spot is asked once.

ghost use Rattle.std.specs.Prelude.{◌≡◌, ◌≤◌, ◌<◌, ◌-◌, All, IfOk, OnOk, IsSome, is_none, length};
ghost use Rattle.std.specs.List.{list_all};
ghost use Rattle.indexmap.specs.IndexMap.{get};
ghost use Rattle.xs_meaning.specs.Ends.{AllEnd};
ghost use Rattle.xs_needs.specs.Found.{AreRight, KeepsFlags};
ghost use Rattle.xs_meaning.specs.Palettes.{is_clear_pixel, pixel_of};
ghost use Rattle.xs_needs.specs.Shown.{is_clear_at, shown, showing_by};
ghost use Rattle.xs_step.specs.Spots.{same_spot};
ghost use Rattle.xs_step.specs.Spots.{input_spot};
ghost use Rattle.xs_step.specs.Steps.{AreThere};
ghost use Rattle.xs_step.specs.Ways.{LeadsTo, WaysEnd};

use crate::found::Known;
use crate::pairs::pair_is_clear;
use std::alloc::Global;
use xs_base::Memory;
use xs_check::GoodScene;
use xs_pixel::Style;
use xs_step::{Spot, Step, Terminals, input, step_at};

/// Whether a spot is clear, which is remembered. The ways from it have at most `left` spots.
#[cycle(clear)]
pub fn is_clear(
    alloc: Global,
    s: &GoodScene,
    left: u32,
    spot: Spot,
    known: &mut Known,
) -> Result<bool, Memory>
    requires all_end { AllEnd s.now.sheets }
    requires there { spot.sheet < length s.now.sheets }
    requires ends { WaysEnd s.now left spot }
    requires known { AreRight s.now known.old.flags.entries }
    ensures clear { IfOk result (λ clear. clear ≡ is_clear_at s.now spot) }
    ensures known { OnOk result (AreRight s.now known.new.flags.entries) }
    ensures kept { OnOk result (KeepsFlags known.old known.new) }
    ensures noted { OnOk result (IsSome (get same_spot known.new.flags spot)) }
{
    if let Some(clear) = known.find(spot) {
        return Ok(clear);
    }
    let clear = is_clear_by(alloc, s, left, spot, step_at(s, spot), known)?;
    known.note(spot, clear)?;
    Ok(clear)
}

/// Whether a spot is clear, by its step.
#[cycle(clear)]
fn is_clear_by(
    alloc: Global,
    s: &GoodScene,
    left: u32,
    spot: Spot,
    step: Step<'_>,
    known: &mut Known,
) -> Result<bool, Memory>
    requires all_end { AllEnd s.now.sheets }
    requires there { AreThere s.now spot step }
    requires some_left { 1 ≤ left }
    requires ends { LeadsTo (WaysEnd s.now (left - 1)) spot step }
    requires known { AreRight s.now known.old.flags.entries }
    ensures clear { IfOk result (λ clear. clear ≡ is_none (showing_by s.now (shown s.now) spot step.entry)) }
    ensures known { OnOk result (AreRight s.now known.new.flags.entries) }
    ensures kept { OnOk result (KeepsFlags known.old known.new) }
{
    match step {
        Step::Clear => Ok(true),
        Step::Drawing { .. } => Ok(false),
        Step::Card(style) => Ok(is_clear_card(style)),
        Step::Nested { row: next, .. }
        | Step::Same(next)
        | Step::Keep(next, _)
        | Step::Delete(next, _)
        | Step::Blur(_, next) => { is_clear(alloc, s, left - 1, next, known) }
        Step::Pair(op, first, second) => {
            let first_clear = is_clear(alloc, s, left - 1, first, known)?;
            let second_clear = is_clear(alloc, s, left - 1, second, known)?;
            Ok(pair_is_clear(op, first_clear, second_clear))
        }
        Step::Over(terminals) => are_clear(alloc, s, left - 1, spot, terminals, known),
    }
}

/// Whether the pixel of a card is clear.
fn is_clear_card(style: Style) -> bool
    ensures { result ≡ is_clear_pixel (pixel_of style) }
{
    let pixel = style.pixel();
    pixel.r() == 0 && pixel.g() == 0 && pixel.b() == 0 && pixel.m() == 0
}

/// Whether columns and nodes of a sheet are all clear at a row.
#[cycle(clear)]
fn are_clear(
    alloc: Global,
    s: &GoodScene,
    left: u32,
    spot: Spot,
    terminals: Terminals<'_>,
    known: &mut Known,
) -> Result<bool, Memory>
    requires all_end { AllEnd s.now.sheets }
    requires there { spot.sheet < length s.now.sheets }
    requires ends { All (λ t. WaysEnd s.now left (input_spot spot.sheet t spot.row)) terminals }
    requires known { AreRight s.now known.old.flags.entries }
    ensures clear { IfOk result (λ clear. clear ≡ list_all (λ t. is_clear_at s.now (input_spot spot.sheet t spot.row)) terminals.entry) }
    ensures known { OnOk result (AreRight s.now known.new.flags.entries) }
    ensures kept { OnOk result (KeepsFlags known.old known.new) }
{
    let mut rest = terminals;
    while let Some((terminal, above)) = rest.split_first() {
        let at = input(spot.sheet, terminal, spot.row);
        if !is_clear(alloc, s, left, at, known)? {
            return Ok(false);
        }
        rest = above;
    }
    Ok(true)
}
