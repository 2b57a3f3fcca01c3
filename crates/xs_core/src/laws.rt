//! Laws of the states of a cache, over every run: every list of events of which each is allowed where it comes,
//! whatever its seats and their order; and of what seats may do.

ghost use Rattle.std.specs.Prelude.{◌≡◌, ◌<◌, ◌↔◌, ℕ, List, Option, true, false, length};
ghost use Rattle.xs_pixel.specs.Picture.{Pictures};
ghost use Rattle.xs_plan.specs.Record.{PlanRecord};
ghost use Rattle.xs_plan.specs.Valid.{IsPlan};
ghost use Rattle.xs_core.specs.declared.event.Event.{Event};
ghost use Rattle.xs_core.specs.declared.state.TileState.TheVariants.{Absent, Held, Leaving};
ghost use Rattle.xs_core.specs.declared.answer.Claim.TheVariants.{Won};
ghost use Rattle.xs_core.specs.declared.answer.Reading.{Reading};
ghost use Rattle.xs_core.specs.Counts.{one_if};
ghost use Rattle.xs_core.specs.States.{World, phase_of, read_of, tile_of, is_started, is_ready, is_lost, is_served, left};
ghost use Rattle.xs_core.specs.Events.{start};
ghost use Rattle.xs_core.specs.Kept.{Kept};
ghost use Rattle.xs_core.specs.Runs.{IsRun, after, claims, finishes, abandons, retires, IsAllServed};
ghost use Rattle.xs_core.specs.Views.{DeskView, DeskOk, HasClaimed, MayRead};
ghost use Rattle.xs_core.specs.Calls.{ClaimTells, ReadingTells, Stays};

use xs_plan::laws::reads_have_their_sources;

/// What every state of every run keeps.
pub fn runs_keep_their_states()
    ensures { (p : PlanRecord) → IsPlan p → (events : List Event) → IsRun p (start p) events → Kept p (after p events) }
{
    reads_have_their_sources();
}

/// A tile is held exactly where its alias is ready and some of its reads are open. Where the alias is not ready
/// there is none, and it leaves only where the alias is ready and no read is open.
pub fn tiles_are_held_while_reads_are_open()
    ensures held { (p : PlanRecord) (w : World) → Kept p w → (k : ℕ)
        → (tile_of w k ≡ Held) ↔ ((is_ready (phase_of w k) ≡ true) × (0 < left p w k)) }
    ensures absent { (p : PlanRecord) (w : World) → Kept p w → (k : ℕ) → is_ready (phase_of w k) ≡ false
        → tile_of w k ≡ Absent }
    ensures leaving { (p : PlanRecord) (w : World) → Kept p w → (k seat : ℕ) → tile_of w k ≡ Leaving seat
        → (is_ready (phase_of w k) ≡ true) × (left p w k ≡ 0) }
{}

/// An alias is claimed at most once, and never exactly where it is idle; it is finished once exactly where it is
/// ready, and given up once exactly where it is lost. A read is retired once exactly where it is served.
pub fn each_thing_happens_once()
    ensures claims { (p : PlanRecord) (events : List Event) → IsRun p (start p) events
        → (k : ℕ) → claims k events ≡ one_if (is_started (phase_of (after p events) k)) }
    ensures finishes { (p : PlanRecord) (events : List Event) → IsRun p (start p) events
        → (k : ℕ) → finishes k events ≡ one_if (is_ready (phase_of (after p events) k)) }
    ensures abandons { (p : PlanRecord) (events : List Event) → IsRun p (start p) events
        → (k : ℕ) → abandons k events ≡ one_if (is_lost (phase_of (after p events) k)) }
    ensures retires { (p : PlanRecord) (events : List Event) → IsRun p (start p) events
        → (e : ℕ) → retires e events ≡ one_if (is_served (read_of (after p events) e)) }
{}

/// Where every read is served, every alias is ready, was claimed once and finished once, and none was given up. If
/// also no tile is leaving, there is none.
pub fn when_every_read_is_served_nothing_is_left()
    ensures ready { (p : PlanRecord) → IsPlan p → (events : List Event) → IsRun p (start p) events
        → IsAllServed p (after p events)
        → (k : ℕ) → k < length p.entries → is_ready (phase_of (after p events) k) ≡ true }
    ensures once { (p : PlanRecord) → IsPlan p → (events : List Event) → IsRun p (start p) events
        → IsAllServed p (after p events)
        → (k : ℕ) → k < length p.entries → (claims k events ≡ 1) × (finishes k events ≡ 1) × (abandons k events ≡ 0) }
    ensures gone { (p : PlanRecord) → IsPlan p → (events : List Event) → IsRun p (start p) events
        → IsAllServed p (after p events)
        → ((k seat : ℕ) → ¬ (tile_of (after p events) k ≡ Leaving seat)) → (k : ℕ)
        → tile_of (after p events) k ≡ Absent }
{
    reads_have_their_sources();
}

/// An alias that a seat has won it has claimed. A reading adds nothing, and what a seat may read it may still read
/// after a call that adds nothing.
pub fn seats_may_go_on()
    ensures claimed { (p : PlanRecord) (v w : DeskView) (k : ℕ) → DeskOk p v → ClaimTells v k Won w → HasClaimed w k }
    ensures reading { (told : Option Pictures) (p : PlanRecord) (v w : DeskView) (e : ℕ) (r : Reading)
        → ReadingTells told p v e r w → Stays v w }
    ensures reads { (p : PlanRecord) (v w : DeskView) (e : ℕ) → Stays v w → MayRead p v e → MayRead p w e }
{}
