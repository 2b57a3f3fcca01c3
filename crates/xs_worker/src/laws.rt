//! Laws of workers and of sections. A section is begun where the earlier ones are done and their rows gathered; it is
//! done where all that comes first in it or before is made, whichever of its rows are gathered.

ghost use Rattle.std.specs.Prelude.{◌≡◌, ◌<◌, ◌+◌, ◌↔◌, ℕ, true, None, List, [], length, slice_index};
ghost use Rattle.std.specs.List.{Contains};
ghost use Rattle.xs_plan.specs.Record.{PlanRecord};
ghost use Rattle.xs_plan.specs.Reads.{reads_in};
ghost use Rattle.xs_plan.specs.Sections.{first_section, live_after};
ghost use Rattle.xs_plan.specs.Valid.{IsPlan};
ghost use Rattle.xs_core.specs.Views.{Signed, DeskView, DeskOk, IsFresh, IsHeld, Knows, Unknown, entries, times};
ghost use Rattle.xs_core.specs.Calls.{Adds};
ghost use Rattle.xs_worker.specs.declared.advanced.Advanced.{Advanced};
ghost use Rattle.xs_worker.specs.declared.advanced.Advanced.TheVariants.{Finished};
ghost use Rattle.xs_worker.specs.Reading.{IsReached};
ghost use Rattle.xs_worker.specs.Claims.{Grew};
ghost use Rattle.xs_worker.specs.Advances.{Standing, StandsAt, fresh_worker, HasFinished, AdvancedTells};
ghost use Rattle.xs_worker.specs.Sections.{IsRootOf, AreRoots, IsRootReadOf, IsBegun, IsDone, AreUngathered, AreGathered, IsMadeIn, Gained, AreKnown, section_roots};

use xs_plan::laws::{
    aliases_come_with_the_first_row_that_reaches_them, live_aliases_are_read_later,
    reads_have_their_sources,
};

/// A new worker stands at every seat that has nothing claimed, if its targets are of the plan; so does one whose
/// targets are those of a section that is begun.
pub fn new_workers_stand_where_nothing_is_claimed()
    ensures idle { (p : PlanRecord) (targets : List ℕ) (v : DeskView)
        → ((i : ℕ) → i < length targets → slice_index targets i < length p.entries)
        → ((k : ℕ) → entries k v.won ≡ entries k v.made + entries k v.lost) → StandsAt p (fresh_worker targets) v }
    ensures begun { (p : PlanRecord) → IsPlan p → (s : ℕ) (targets : List ℕ) (v : DeskView) → AreRoots p s targets
        → IsBegun p s v → DeskOk p v → StandsAt p (fresh_worker targets) v }
{}

/// Where nothing is claimed or given up, a worker at a seat that is alone comes to the end of its targets or is short
/// of memory; at their end nothing is claimed or given up either.
pub fn workers_that_are_alone_finish()
    ensures finish { (p : PlanRecord) (s new : Standing) (v w : DeskView) (b c : List ℕ) (a : Advanced) → DeskOk p v
        → v.solo ≡ true → s.gone ≡ None → ((k : ℕ) → entries k v.won ≡ entries k v.made)
        → AdvancedTells p s v b a new w c → a ≡ Finished }
    ensures settled { (p : PlanRecord) (s new : Standing) (v w : DeskView) (b c : List ℕ) → DeskOk p v
        → ((k : ℕ) → entries k v.won ≡ entries k v.made) → HasFinished p s v b new w c → StandsAt p new w
        → (k : ℕ) → entries k w.won ≡ entries k w.made }
{}

/// The targets of a section are the aliases of its rows and tiles, and no others.
pub fn targets_of_a_section_are_its_roots()
    ensures { (p : PlanRecord) (s : ℕ) → AreRoots p s (section_roots p s) }
{}

/// What a worker adds is gained for its targets, and its bench's record grows as the list of what was made; what is
/// gained by one and then by another is gained.
pub fn workers_gain_for_their_targets()
    ensures gained { (p : PlanRecord) (targets : List ℕ) (v w : DeskView) (b c more gone : List ℕ)
        → Grew p targets v w b c more gone → Gained p targets v w }
    ensures computed { (p : PlanRecord) (targets : List ℕ) (v w : DeskView) (b c gone : List ℕ) (k : ℕ)
        → Grew p targets v w b c [] gone → times k c + entries k v.made ≡ times k b + entries k w.made }
    ensures together { (p : PlanRecord) (targets : List ℕ) (v w x : DeskView) → ((k : ℕ) → Knows v k → Knows w k)
        → Gained p targets v w → Gained p targets w x → Gained p targets v x }
{}

/// What the targets of a section reach and a seat does not know to be ready before the section, as all that a worker
/// wins in it, comes first in the section.
pub fn what_is_won_in_a_section_comes_first_in_it()
    ensures { (p : PlanRecord) → IsPlan p → (s : ℕ) (targets : List ℕ) (v : DeskView) (k : ℕ) → AreRoots p s targets
        → IsBegun p s v → DeskOk p v → k < length p.entries → IsReached p targets k → Unknown v k
        → first_section p k ≡ s }
{
    aliases_come_with_the_first_row_that_reaches_them();
    reads_have_their_sources();
}

/// Before the first section nothing is made.
pub fn the_first_section_is_begun_at_a_fresh_seat()
    ensures { (p : PlanRecord) (v : DeskView) → IsFresh v → IsBegun p 0 v }
{}

/// Once the targets of a section are known to be ready to the only seat, and nothing is claimed or given up, the
/// section is done. What was made in it is exactly what comes first in it, each once, and none of its rows is gathered
/// yet.
pub fn a_section_is_done_when_its_targets_are_ready()
    ensures done { (p : PlanRecord) → IsPlan p → (s : ℕ) (targets : List ℕ) (v w : DeskView) → AreRoots p s targets
        → IsBegun p s v → DeskOk p v → DeskOk p w → w.solo ≡ true → Gained p targets v w
        → ((k : ℕ) → entries k w.won ≡ entries k w.made) → AreKnown w targets → IsDone p s w }
    ensures made { (p : PlanRecord) → IsPlan p → (s : ℕ) (targets : List ℕ) (v w : DeskView) → AreRoots p s targets
        → IsBegun p s v → DeskOk p v → DeskOk p w → w.solo ≡ true → Gained p targets v w
        → ((k : ℕ) → entries k w.won ≡ entries k w.made) → AreKnown w targets → IsMadeIn p s v w }
    ensures ungathered { (p : PlanRecord) → IsPlan p → (s : ℕ) (targets : List ℕ) (v w : DeskView) → IsBegun p s v
        → DeskOk p w → Gained p targets v w → AreUngathered p s w }
{
    aliases_come_with_the_first_row_that_reaches_them();
    reads_have_their_sources();
}

/// After a section the aliases of its rows are ready, and the section stays done while its rows are gathered, in any
/// order.
pub fn rows_of_a_section_may_be_gathered_in_any_order()
    ensures ready { (p : PlanRecord) → IsPlan p → (s : ℕ) (v : DeskView) (k : ℕ) → IsDone p s v → DeskOk p v
        → IsRootOf p s k → Knows v k }
    ensures done { (p : PlanRecord) → IsPlan p → (s : ℕ) (v w : DeskView) (reads : List Signed) → IsDone p s v
        → Adds v w [] [] [] reads → ((e : ℕ) → 0 < entries e reads → IsRootReadOf p s e) → IsDone p s w }
{
    aliases_come_with_the_first_row_that_reaches_them();
    reads_have_their_sources();
}

/// After a section whose rows are all gathered the tiles that are held are exactly those that a later section reads,
/// and the next section is begun.
pub fn what_is_held_after_a_section_is_read_later()
    ensures held { (p : PlanRecord) → IsPlan p → (s : ℕ) (v : DeskView) (k : ℕ) → IsDone p s v → AreGathered p s v
        → IsHeld p v k ↔ Contains (live_after p s) k }
    ensures begun { (p : PlanRecord) → IsPlan p → (s : ℕ) (v : DeskView) → IsDone p s v → AreGathered p s v
        → IsBegun p (s + 1) v }
{
    aliases_come_with_the_first_row_that_reaches_them();
    live_aliases_are_read_later();
    reads_have_their_sources();
}
