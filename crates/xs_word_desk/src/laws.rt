//! Laws of the states of a cache, between any two steps of any seats: what its words and views show, and which event of
//! the core each step is.

ghost use Rattle.std.specs.Prelude.{◌≡◌, ◌≢◌, ◌<◌, ◌+◌, ℕ, List, Option, Some, true, length};
ghost use mathlib.Core.Option.{some};
ghost use lib.ListN.{get_elem?};
ghost use Rattle.atomic_table.specs.Table.{State};
ghost use Rattle.atomic_table.specs.Seated.{TableId};
ghost use Rattle.xs_pixel.specs.Picture.{Pictures};
ghost use Rattle.xs_raster.specs.declared.tile.Tile.{Tile};
ghost use Rattle.xs_plan.specs.Record.{PlanRecord};
ghost use Rattle.xs_core.specs.declared.event.Event.{Event};
ghost use Rattle.xs_core.specs.declared.state.Phase.TheVariants.{Claimed};
ghost use Rattle.xs_core.specs.declared.state.ReadState.TheVariants.{InTurn, Served};
ghost use Rattle.xs_core.specs.declared.state.TileState.TheVariants.{Held, Leaving};
ghost use Rattle.xs_core.specs.Counts.{one_if};
ghost use Rattle.xs_core.specs.States.{
  phase_of,
  read_of,
  tile_of,
  turns,
  is_started,
  is_ready,
  is_lost,
  is_served,
  seat_in,
};
ghost use Rattle.xs_core.specs.Events.{start};
ghost use Rattle.xs_core.specs.Kept.{Kept};
ghost use Rattle.xs_core.specs.Runs.{IsRun, after, claims, finishes, abandons, retires};
ghost use Rattle.xs_core.specs.Calls.{HoldsTile};
ghost use Rattle.xs_core.specs.Views.{held_count, under};
ghost use Rattle.xs_word_desk.specs.declared.view.View.{View};
ghost use Rattle.xs_word_desk.specs.Seen.{wins, makes, loses, knows, serves};
ghost use Rattle.xs_word_desk.specs.Rule.{Slot, at_home};
ghost use Rattle.xs_word_desk.specs.Changes.{AtRest};
ghost use Rattle.xs_word_desk.specs.Plays.{At, IsSolo};
ghost use Rattle.xs_word_desk.specs.Desks.{desk_view};
ghost use Rattle.xs_word_desk.specs.Shown.{held_tiles, shown, after_split, after_join};
ghost use Rattle.xs_word_desk.specs.Traced.{Traced, EachStep};

use xs_core::laws::{each_thing_happens_once, runs_keep_their_states};

/// Between any two steps the words and views show a state of a run of the core from its start, which keeps what every
/// such state keeps. In that run each alias was claimed once exactly where it is not idle, finished once exactly where
/// it is ready and given up once exactly where it is lost, and each read was retired once exactly where it is served.
pub fn a_cache_shows_a_state_of_a_run()
    ensures kept { (told : Option Pictures) (p : PlanRecord) (s : State Slot View) → Traced told p s
        → Kept p (shown p s) }
    ensures once { (told : Option Pictures) (p : PlanRecord) (s : State Slot View) → Traced told p s
        → (events : List Event) × IsRun p (start p) events × (shown p s ≡ after p events)
        × ((k : ℕ) → claims k events ≡ one_if (is_started (phase_of (shown p s) k)))
        × ((k : ℕ) → finishes k events ≡ one_if (is_ready (phase_of (shown p s) k)))
        × ((k : ℕ) → abandons k events ≡ one_if (is_lost (phase_of (shown p s) k)))
        × ((e : ℕ) → retires e events ≡ one_if (is_served (read_of (shown p s) e))) }
{
    runs_keep_their_states();
    each_thing_happens_once();
}

/// Each step on the word of an alias is the event named for its kind, or none. Splitting a seat off and joining it
/// are no event.
pub fn each_step_is_its_event()
    ensures steps { (told : Option Pictures) (p : PlanRecord) (n id k : ℕ) (m : At) → k < length p.entries
        → EachStep told p n id k m }
    ensures split { (p : PlanRecord) (s : State Slot View) (id : ℕ) (v : View) → get_elem? s.views id ≡ some v
        → shown p (after_split s id v) ≡ shown p s }
    ensures join { (p : PlanRecord) (s : State Slot View) (id other : ℕ) (v w : View) → get_elem? s.views id ≡ some v
        → other ≢ id → get_elem? s.views other ≡ some w → AtRest w
        → shown p (after_join s id other v w) ≡ shown p s }
{}

/// A slot at home has a tile exactly where the state shown holds it and no read of the alias is in turn, and that tile
/// holds the value of the alias. What a seat knows to be ready is ready.
pub fn slots_have_the_tiles_that_are_held()
    ensures held { (told : Option Pictures) (p : PlanRecord) (s : State Slot View) → Traced told p s
        → (k : ℕ) (t : Tile) → get_elem? s.homes k ≡ at_home (Some t)
        → (tile_of (shown p s) k ≡ Held) × (turns p (shown p s) k ≡ 0) × HoldsTile told p k t }
    ensures there { (told : Option Pictures) (p : PlanRecord) (s : State Slot View) → Traced told p s
        → (k : ℕ) → tile_of (shown p s) k ≡ Held → turns p (shown p s) k ≡ 0
        → (t : Tile) × (get_elem? s.homes k ≡ at_home (Some t)) }
    ensures known { (told : Option Pictures) (p : PlanRecord) (s : State Slot View) → Traced told p s
        → (id k : ℕ) (v : View) → get_elem? s.views id ≡ some v → 0 < knows k v
        → is_ready (phase_of (shown p s) k) ≡ true }
{}

/// The seats that the state shown names are those whose views say so: a read is in turn with the seat that has it in
/// turn, and served where some seat has served it; a tile leaves by the seat by which it is leaving; and the seat of a
/// claimed or ready alias has won it, under that number.
pub fn seats_are_shown_as_their_views_say()
    ensures turn { (told : Option Pictures) (p : PlanRecord) (s : State Slot View) → Traced told p s
        → (id e : ℕ) (v : View) → get_elem? s.views id ≡ some v → v.turn ≡ Some e
        → read_of (shown p s) e ≡ InTurn v.number }
    ensures turner { (told : Option Pictures) (p : PlanRecord) (s : State Slot View) → Traced told p s
        → (e n : ℕ) → read_of (shown p s) e ≡ InTurn n
        → (id : ℕ) × (v : View) × (get_elem? s.views id ≡ some v) × (v.turn ≡ Some e) × (v.number ≡ n) }
    ensures served { (told : Option Pictures) (p : PlanRecord) (s : State Slot View) → Traced told p s
        → (id e : ℕ) (v : View) → get_elem? s.views id ≡ some v → 0 < serves e v
        → read_of (shown p s) e ≡ Served }
    ensures server { (told : Option Pictures) (p : PlanRecord) (s : State Slot View) → Traced told p s
        → (e : ℕ) → read_of (shown p s) e ≡ Served
        → (id : ℕ) × (v : View) × (get_elem? s.views id ≡ some v) × (0 < serves e v) }
    ensures leaving { (told : Option Pictures) (p : PlanRecord) (s : State Slot View) → Traced told p s
        → (id k : ℕ) (v : View) → get_elem? s.views id ≡ some v → k < length p.entries → v.leaving ≡ Some k
        → tile_of (shown p s) k ≡ Leaving v.number }
    ensures leaver { (told : Option Pictures) (p : PlanRecord) (s : State Slot View) → Traced told p s
        → (k n : ℕ) → tile_of (shown p s) k ≡ Leaving n
        → (id : ℕ) × (v : View) × (get_elem? s.views id ≡ some v) × (v.leaving ≡ Some k) × (v.number ≡ n) }
    ensures claimed { (told : Option Pictures) (p : PlanRecord) (s : State Slot View) → Traced told p s
        → (id k : ℕ) (v : View) → get_elem? s.views id ≡ some v → makes k v + loses k v < wins k v
        → phase_of (shown p s) k ≡ Claimed v.number }
    ensures winner { (told : Option Pictures) (p : PlanRecord) (s : State Slot View) → Traced told p s
        → (k n : ℕ) → seat_in (phase_of (shown p s) k) ≡ Some n
        → (id : ℕ) × (v : View) × (get_elem? s.views id ≡ some v) × (0 < under n k v.won) }
{}

/// A chief that is alone tells from its lists how many tiles are held.
pub fn the_chief_alone_knows_how_many_tiles_are_held()
    ensures { (told : Option Pictures) (p : PlanRecord) (s : State Slot View) → Traced told p s
        → (table : TableId) (id : ℕ) (v : View) → get_elem? s.views id ≡ some v → IsSolo v
        → held_count p (desk_view table v) ≡ held_tiles p (shown p s) }
{}
