//! The numbers of states, step by step. What is clear is never entered.

ghost use Rattle.std.specs.Prelude.{◌≡◌, ◌<◌, ◌+◌, ◌-◌, ◌≤◌, All, false, not, IfOk, OnOk, length, map};
ghost use Rattle.xs_check.specs.Good.{files_of};
ghost use Rattle.xs_scene.specs.Ranges.{IsFiltered};
ghost use Rattle.xs_pixel.specs.Points.{Point};
ghost use Rattle.xs_meaning.specs.Drawings.{colours_of};
ghost use Rattle.xs_meaning.specs.Expressions.{is_clear, pair_of, leaf_by, Pair, Blur, Card};
ghost use Rattle.xs_meaning.specs.Palettes.{Dropped as DroppedStyles, pixel_of};
ghost use Rattle.xs_step.specs.Spots.{input_spot};
ghost use Rattle.xs_step.specs.Ways.{WaysEnd};
ghost use Rattle.xs_tint.specs.Filters.{filtering};
ghost use Rattle.xs_demand.specs.Renamed.{renamed};
ghost use Rattle.xs_build.specs.Stacks.{stacked, seen_down};
ghost use Rattle.xs_build.specs.States.{named, spot_expr, state_expr, stepped_expr, terminal_expr, dropped_in, offset_of, IsReady, IsSound, IsState, MayAsk, MayEnter, MayStep, Gives, Adds};

use crate::build::Build;
use crate::drawing::put_drawing;
use crate::normal::{filtered, normal};
use crate::pairs::{Stays, staying};
use crate::put::{put_blur, put_card, put_clear, put_each_over, put_pair};
use crate::scope::Scope;
use crate::state::State;
use crate::stop::Stop;
use xs_base::Memory;
use xs_extent::extent;
use xs_extent::laws::extents_know_neither_offset_nor_filters;
use xs_pixel::{Op, Style};
use xs_step::{Spot, Step, Styles, Terminals, input, step_at};

/// The number of a state: that of its normal form. The ways from its spot have at most `left` spots.
#[cycle(number)]
pub(crate) fn number(
    at: &Scope<'_>,
    left: u32,
    state: State,
    build: &mut Build,
) -> Result<u32, Stop>
    requires { MayEnter at.now left state build.old }
    ensures { Gives at.now build.old build.new
        (state_expr at.now.scene.now at.now.names.now build.old.sets.keys state) state.growth result }
{
    let state = normal(at, left, state, build)?;
    number_normal(at, left, state, build)
}

/// The number of a state in normal form, which is remembered.
#[cycle(number)]
fn number_normal(at: &Scope<'_>, left: u32, state: State, build: &mut Build) -> Result<u32, Stop>
    requires { MayEnter at.now left state build.old }
    ensures { Gives at.now build.old build.new
        (state_expr at.now.scene.now at.now.names.now build.old.sets.keys state) state.growth result }
{
    if let Some(n) = build.recall(state) {
        return Ok(n);
    }
    let n = number_by(at, left, state, step_at(at.scene, state.spot), build)?;
    build.remember(state, n)?;
    Ok(n)
}

/// The number of a state, by its step.
#[cycle(number)]
fn number_by(
    at: &Scope<'_>,
    left: u32,
    state: State,
    step: Step<'_>,
    build: &mut Build,
) -> Result<u32, Stop>
    requires { MayStep at.now left state step build.old }
    ensures { Gives at.now build.old build.new
        (stepped_expr at.now.scene.now at.now.names.now build.old.sets.keys state step.entry) state.growth result }
{
    match step {
        Step::Clear => unreachable!(),
        Step::Drawing {
            level,
            index,
            offset,
        } => number_drawing(
            at,
            state.moved(offset),
            at.scene.number(level, index),
            build,
        ),
        Step::Nested { row, offset } => number(at, left - 1, state.moved(offset).at(row), build),
        Step::Same(next) => number(at, left - 1, state.at(next), build),
        Step::Keep(next, styles) => {
            number_filtered(at, left - 1, state.at(next), true, styles, build)
        }
        Step::Delete(next, styles) => {
            number_filtered(at, left - 1, state.at(next), false, styles, build)
        }
        Step::Pair(op, first, second) => {
            number_pair(at, left - 1, op, (state.at(first), state.at(second)), build)
        }
        Step::Blur(radius, next) => number_blur(at, left - 1, radius, state.at(next), build),
        Step::Card(style) => number_card(at, state, style, build),
        Step::Over(terminals) => number_over(at, left - 1, state, terminals, build),
    }
}

/// The number of a drawing.
fn number_drawing(at: &Scope<'_>, state: State, d: u32, build: &mut Build) -> Result<u32, Stop>
    requires ready { IsReady at.now }
    requires sound { IsSound at.now.scene.now at.now.names.now build.old }
    requires set { state.dropped < length build.old.sets.keys }
    requires there { d < length (files_of at.now.scene.now.levels) }
    ensures { Gives at.now build.old build.new (renamed (named at.now.names.now)
        (leaf_by (colours_of at.now.scene.now d) d state.spot.row (dropped_in build.old.sets.keys state.dropped) (offset_of state)))
        state.growth result }
{
    let dropped = build.sets.as_slice()[state.dropped as usize].as_dropped(at.alloc)?;
    put_drawing(at, state, d, &dropped, &mut build.entered)
}

/// The number of a card.
fn number_card(at: &Scope<'_>, state: State, style: Style, build: &mut Build) -> Result<u32, Stop>
    requires ready { IsReady at.now }
    requires sound { IsSound at.now.scene.now at.now.names.now build.old }
    ensures { Gives at.now build.old build.new (Card (pixel_of style)) state.growth result }
{
    put_card(at.most, style, state.growth, &mut build.entered)
}

/// The number of a spot below a filter of these styles.
#[cycle(number)]
fn number_filtered(
    at: &Scope<'_>,
    left: u32,
    state: State,
    keep: bool,
    styles: Styles<'_>,
    build: &mut Build,
) -> Result<u32, Stop>
    requires ask { MayAsk at.now left state build.old }
    requires styles { All IsFiltered styles }
    requires seen { is_clear (spot_expr at.now.scene.now at.now.names.now state.spot
        (filtering keep styles (dropped_in build.old.sets.keys state.dropped)) (offset_of state)) ≡ false }
    ensures { Gives at.now build.old build.new (spot_expr at.now.scene.now at.now.names.now state.spot
        (filtering keep styles.entry (dropped_in build.old.sets.keys state.dropped)) (offset_of state)) state.growth result }
{
    let state = filtered(at, left, state, keep, styles.items(), build)?;
    number(at, left, state, build)
}

/// The number of the blur of a spot.
#[cycle(number)]
fn number_blur(
    at: &Scope<'_>,
    left: u32,
    radius: u32,
    state: State,
    build: &mut Build,
) -> Result<u32, Stop>
    requires { MayEnter at.now left (record state { growth = state.growth + radius }) build.old }
    ensures { Gives at.now build.old build.new
        (Blur radius (state_expr at.now.scene.now at.now.names.now build.old.sets.keys state)) state.growth result }
{
    // the inputs of all that was entered were entered
    build.entered.len();
    let input = number(at, left, state.grown(radius), build)?;
    put_blur(at.most, radius, input, state.growth, &mut build.entered)
}

/// Whether a spot is seen.
fn is_seen(at: &Scope<'_>, left: u32, state: State, build: &mut Build) -> Result<bool, Memory>
    requires { MayAsk at.now left state build.old }
    ensures seen { IfOk result (λ seen. (f : DroppedStyles) (o : Point)
        → is_clear (spot_expr at.now.scene.now at.now.names.now state.spot f o) ≡ not seen) }
    ensures entered { build.new.entered ≡ build.old.entered }
    ensures states { build.new.states ≡ build.old.states }
    ensures sets { build.new.sets ≡ build.old.sets }
    ensures sound { OnOk result (IsSound at.now.scene.now at.now.names.now build.new) }
{
    extents_know_neither_offset_nor_filters();
    let extent = extent(at.alloc, at.scene, left, state.spot, &mut build.extents)?;
    Ok(extent.is_some())
}

/// The number of a state that may be clear.
pub(crate) fn number_any(
    at: &Scope<'_>,
    left: u32,
    state: State,
    build: &mut Build,
) -> Result<u32, Stop>
    requires { MayAsk at.now left state build.old }
    ensures { Gives at.now build.old build.new
        (state_expr at.now.scene.now at.now.names.now build.old.sets.keys state) state.growth result }
{
    if is_seen(at, left, state, build)? {
        number(at, left, state, build)
    } else {
        put_clear(at.most, state.growth, &mut build.entered)
    }
}

/// The number of an operation of two spots, as far as they stay.
#[cycle(number)]
fn number_pair(
    at: &Scope<'_>,
    left: u32,
    op: Op,
    inputs: (State, State),
    build: &mut Build,
) -> Result<u32, Stop>
    requires first { MayAsk at.now left inputs.0 build.old }
    requires second { MayAsk at.now left inputs.1 build.old }
    requires growth { inputs.0.growth ≡ inputs.1.growth }
    requires seen { is_clear (pair_of op (state_expr at.now.scene.now at.now.names.now build.old.sets.keys inputs.0)
        (state_expr at.now.scene.now at.now.names.now build.old.sets.keys inputs.1)) ≡ false }
    ensures { Gives at.now build.old build.new (pair_of op (state_expr at.now.scene.now at.now.names.now build.old.sets.keys inputs.0)
        (state_expr at.now.scene.now at.now.names.now build.old.sets.keys inputs.1)) inputs.0.growth result }
{
    let first_seen = is_seen(at, left, inputs.0, build)?;
    let second_seen = is_seen(at, left, inputs.1, build)?;
    match staying(op, !first_seen, !second_seen) {
        Stays::Both => number_both(at, left, op, inputs, build),
        Stays::First => number(at, left, inputs.0, build),
        Stays::Second => number(at, left, inputs.1, build),
        Stays::Neither => unreachable!(),
    }
}

/// The number of an operation of two spots that are seen.
#[cycle(number)]
fn number_both(
    at: &Scope<'_>,
    left: u32,
    op: Op,
    inputs: (State, State),
    build: &mut Build,
) -> Result<u32, Stop>
    requires first { MayEnter at.now left inputs.0 build.old }
    requires second { MayEnter at.now left inputs.1 build.old }
    requires growth { inputs.0.growth ≡ inputs.1.growth }
    ensures { Gives at.now build.old build.new (Pair op (state_expr at.now.scene.now at.now.names.now build.old.sets.keys inputs.0)
        (state_expr at.now.scene.now at.now.names.now build.old.sets.keys inputs.1)) inputs.0.growth result }
{
    // the inputs of all that was entered were entered
    build.entered.len();
    let (first, second) = inputs;
    let upper = number(at, left, first, build)?;
    let lower = number(at, left, second, build)?;
    put_pair(
        at.most,
        op,
        (upper, lower),
        first.growth,
        &mut build.entered,
    )
}

/// The number of columns and nodes of a sheet laid over one another: each that is seen is entered, the last,
/// which is the topmost, first.
#[cycle(number)]
fn number_over(
    at: &Scope<'_>,
    left: u32,
    state: State,
    terminals: Terminals<'_>,
    build: &mut Build,
) -> Result<u32, Stop>
    requires ready { IsReady at.now }
    requires sound { IsSound at.now.scene.now at.now.names.now build.old }
    requires there { state.spot.sheet < length at.now.scene.now.sheets }
    requires state { IsState at.now.scene.now left build.old.sets.keys state }
    requires ends { All (λ t. WaysEnd at.now.scene.now left (input_spot state.spot.sheet t state.spot.row)) terminals }
    requires seen { is_clear (stacked (seen_down (map (terminal_expr at.now.scene.now at.now.names.now build.old.sets.keys state) terminals))) ≡ false }
    ensures { Gives at.now build.old build.new
        (stacked (seen_down (map (terminal_expr at.now.scene.now at.now.names.now build.old.sets.keys state) terminals.entry)))
        state.growth result }
{
    // the inputs of all that was entered were entered
    build.entered.len();
    let mut numbers = Vec::new(at.alloc);
    let mut rest = terminals;
    while let Some((terminal, below)) = rest.split_last() {
        let spot = input(state.spot.sheet, terminal, state.spot.row);
        add_seen(at, left, state.at(spot), &mut numbers, build)?;
        rest = below;
    }
    let Some(lowest) = numbers.pop() else {
        unreachable!();
    };
    put_each_over(at.most, numbers, lowest, state.growth, &mut build.entered)
}

/// Puts the number of a spot last, if it is seen.
#[cycle(number)]
fn add_seen(
    at: &Scope<'_>,
    left: u32,
    state: State,
    numbers: &mut Vec<u32>,
    build: &mut Build,
) -> Result<(), Stop>
    requires { MayAsk at.now left state build.old }
    ensures { Adds at.now build.old build.new numbers.old.items numbers.new.items
        (state_expr at.now.scene.now at.now.names.now build.old.sets.keys state) state.growth result }
{
    if !is_seen(at, left, state, build)? {
        return Ok(());
    }
    let n = number(at, left, state, build)?;
    numbers.push(n)?;
    Ok(())
}
