//! What is told between the calls of a render. Each function does nothing: its contract is what it tells.

ghost use Rattle.std.specs.Prelude.{◌≡◌, ◌+◌, ◌↔◌, ℕ, List, [], Contains};
ghost use Rattle.xs_plan.specs.Sections.{sections_in, live_after};
ghost use Rattle.xs_core.specs.Views.{IsFresh, IsHeld};
ghost use Rattle.xs_render.specs.Progress.{IsReady, IsRendered, IsOver, rows_of_section};
ghost use Rattle.xs_render.specs.Computed.{IsRecorded, HasEachOnce};

use crate::section::look_over;
use xs_core::Desk;
use xs_pixel::Film;
use xs_plan::Plan;
use xs_plan::laws::{
    aliases_come_with_the_first_row_that_reaches_them, live_aliases_are_read_later,
    reads_have_their_sources,
};
use xs_worker::laws::{
    the_first_section_is_begun_at_a_fresh_seat, what_is_held_after_a_section_is_read_later,
};

/// At a fresh seat no section is rendered, and a bench that has computed nothing has recorded what is made.
pub fn nothing_is_rendered_yet<K: Film, D: Desk<K>>(p: &Plan, desk: &D)
    requires plan { D.plan desk.now ≡ p.now }
    requires fresh { IsFresh (D.view desk.now) }
    ensures ready { IsReady p.now 0 (D.view desk.now) }
    ensures recorded { IsRecorded (D.view desk.now) [] }
{
    the_first_section_is_begun_at_a_fresh_seat();
}

/// Once all rows of a section are gathered the next one can be made; the tiles that are held are exactly those that a
/// later section reads.
pub fn a_section_is_rendered<K: Film, D: Desk<K>>(p: &Plan, desk: &D, s: u32)
    requires plan { D.plan desk.now ≡ p.now }
    requires rendered { IsRendered p.now s (rows_of_section p.now s) (D.view desk.now) }
    ensures ready { IsReady p.now (s + 1) (D.view desk.now) }
    ensures held { (k : ℕ) → IsHeld p.now (D.view desk.now) k ↔ Contains (live_after p.now s) k }
{
    // what may be relied on in a plan
    p.aliases();
    what_is_held_after_a_section_is_read_later();
}

/// Once all sections are rendered each alias was made once, each read was served once, and nothing is held; and a bench
/// that computed what was made computed each alias once.
pub fn all_is_rendered<K: Film, D: Desk<K>>(p: &Plan, desk: &D)
    requires plan { D.plan desk.now ≡ p.now }
    requires ready { IsReady p.now (sections_in p.now) (D.view desk.now) }
    ensures over { IsOver p.now (D.view desk.now) }
    ensures computed { (computed : List ℕ) → IsRecorded (D.view desk.now) computed → HasEachOnce p.now computed }
{
    // what may be relied on in a plan
    p.aliases();
    look_over(desk);
    aliases_come_with_the_first_row_that_reaches_them();
    live_aliases_are_read_later();
    reads_have_their_sources();
    what_is_held_after_a_section_is_read_later();
}
