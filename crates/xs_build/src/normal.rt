//! The normal form of states.

ghost use Rattle.std.specs.Prelude.{◌≡◌, All, false, IfOk, OnOk, if◌then◌else◌, pos};
ghost use Rattle.xs_meaning.specs.Expressions.{is_clear};
ghost use Rattle.xs_scene.specs.Ranges.{IsFiltered};
ghost use Rattle.xs_stays.specs.Found.{KeepsSets};
ghost use Rattle.xs_tint.specs.Filters.{filtering};
ghost use Rattle.xs_build.specs.States.{dropped_in, offset_of, spot_expr, state_expr, MayAsk, MayEnter, StandsIn};

use crate::build::Build;
use crate::scope::Scope;
use crate::state::State;
use xs_base::Memory;
use xs_stays::laws::{stays_are_told_step_by_step, what_does_not_stay_changes_nothing};
use xs_stays::{Found, stay};

/// The state that is entered in the place of another one: it has no offset where no drawing stays, and of the
/// dropped styles those alone that count.
pub(crate) fn normal(
    at: &Scope<'_>,
    left: u32,
    state: State,
    build: &mut Build,
) -> Result<State, Memory>
    requires { MayEnter at.now left state build.old }
    ensures entered { build.new.entered ≡ build.old.entered }
    ensures sets { OnOk result (KeepsSets build.old.sets.keys build.new.sets.keys) }
    ensures state { IfOk result (StandsIn at.now left build.new
        (state_expr at.now.scene.now at.now.names.now build.old.sets.keys state) state.growth) }
{
    stays_are_told_step_by_step();
    what_does_not_stay_changes_nothing();
    let Some(found) = stay(at.alloc, at.scene, left, state.spot, &mut build.stays)? else {
        unreachable!();
    };
    let dropped = build.counting(at.alloc, state.dropped, found.styles)?;
    Ok(with_what_stays(state, found, dropped))
}

/// The state that is entered below a filter of these styles, where this is the state above it at the spot below.
pub(crate) fn filtered(
    at: &Scope<'_>,
    left: u32,
    state: State,
    keep: bool,
    styles: &[u32],
    build: &mut Build,
) -> Result<State, Memory>
    requires ask { MayAsk at.now left state build.old }
    requires styles { All IsFiltered styles.now }
    requires seen { is_clear (spot_expr at.now.scene.now at.now.names.now state.spot
        (filtering keep styles.now (dropped_in build.old.sets.keys state.dropped)) (offset_of state)) ≡ false }
    ensures entered { build.new.entered ≡ build.old.entered }
    ensures sets { OnOk result (KeepsSets build.old.sets.keys build.new.sets.keys) }
    ensures state { IfOk result (StandsIn at.now left build.new (spot_expr at.now.scene.now at.now.names.now state.spot
        (filtering keep styles.now (dropped_in build.old.sets.keys state.dropped)) (offset_of state)) state.growth) }
{
    stays_are_told_step_by_step();
    what_does_not_stay_changes_nothing();
    let Some(found) = stay(at.alloc, at.scene, left, state.spot, &mut build.stays)? else {
        unreachable!();
    };
    let dropped = build.counting_filtered(at.alloc, state.dropped, keep, styles, found.styles)?;
    Ok(with_what_stays(state, found, dropped))
}

/// A state under these dropped styles, and under no offset where no drawing stays.
fn with_what_stays(state: State, found: Found, dropped: u32) -> State
    ensures { result ≡ record state {
      dropped = dropped;
      x = if found.drawing then state.x else pos 0;
      y = if found.drawing then state.y else pos 0;
    } }
{
    let state = state.under(dropped);
    if found.drawing { state } else { state.still() }
}
