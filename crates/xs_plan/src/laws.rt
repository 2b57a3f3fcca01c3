//! Laws of plans.

ghost use Rattle.std.specs.Prelude.{◌≡◌, ◌≢◌, ◌<◌, ◌≤◌, ◌+◌, ◌++◌, ◌∷◌, ◌↔◌, ℕ, None, Some, List, [], All, AllPairs, Contains, length, map, flat_map, slice_get, slice_index};
ghost use Rattle.std.specs.List.{range_with_len};
ghost use Rattle.xs_base.specs.Once.{each_once};
ghost use Rattle.xs_plan.specs.declared.job.Edge.{Edge};
ghost use Rattle.xs_plan.specs.declared.job.Reader.TheVariants.{Port, Root};
ghost use Rattle.xs_plan.specs.Record.{Entry, PlanRecord, drawing_of, entry_at, root_at, rows_in};
ghost use Rattle.xs_plan.specs.Reads.{sources, first_read, root_read_of, edge, edges};
ghost use Rattle.xs_plan.specs.Sections.{sections_in, first_row, section_of, first_section, live_after};
ghost use Rattle.xs_plan.specs.Needed.{held, last_section_of, needs, new_drawings};
ghost use Rattle.xs_plan.specs.Valid.{IsPlan, Reaches, RowReaches};

/// The reads read the sources, in the order of their numbers; an alias's read at a port, and that of a row's
/// tile, have the numbers that are told of them. Each source is an alias of the plan.
pub fn reads_have_their_sources()
    ensures sources { (p : PlanRecord) → map (λ e. e.source) (edges p) ≡ sources p }
    ensures ports { (p : PlanRecord) (k port : ℕ) → k < length p.entries → port < length (entry_at p.entries k).inputs
        → slice_get (edges p) (first_read p k + port) ≡ Some (edge (slice_index (entry_at p.entries k).inputs port) (Port k port)) }
    ensures roots { (p : PlanRecord) → IsPlan p → (row tile : ℕ) → row < rows_in p → tile < length p.tiles
        → slice_get (edges p) (root_read_of p row tile) ≡ Some (edge (root_at p row tile) (Root row tile)) }
    ensures exist { (p : PlanRecord) → IsPlan p → All (λ source. source < length p.entries) (sources p) }
{}

/// An alias comes first in the first row that reaches it.
pub fn aliases_come_with_the_first_row_that_reaches_them()
    ensures there { (p : PlanRecord) → IsPlan p → (k : ℕ) → k < length p.entries → first_row p k < rows_in p }
    ensures reached { (p : PlanRecord) → IsPlan p → (k : ℕ) → k < length p.entries → RowReaches p (first_row p k) k }
    ensures no_earlier { (p : PlanRecord) → IsPlan p → (row k : ℕ) → row < rows_in p → RowReaches p row k → first_row p k ≤ row }
{}

/// The new drawings of the sections, one section after another, are the drawings that sections need, each
/// once at its first place.
pub fn each_needed_drawing_is_new_once()
    ensures together { (p : PlanRecord)
        → flat_map (new_drawings p) (range_with_len 0 (sections_in p)) ≡ each_once (flat_map (needs p) (range_with_len 0 (sections_in p))) }
    ensures once { (p : PlanRecord) → AllPairs (λ a b. a ≢ b) (flat_map (new_drawings p) (range_with_len 0 (sections_in p))) }
{}

/// A drawing is held in a section exactly where a section up to it needs the drawing, and one from it on.
pub fn drawings_are_held_while_they_are_needed()
    ensures { (p : PlanRecord) (s d : ℕ) → s < sections_in p → Contains (held p s) d
        ↔ (((first : ℕ) × (first ≤ s) × Contains (needs p first) d)
        × ((later : ℕ) × (s ≤ later) × (later < sections_in p) × Contains (needs p later) d)) }
{}

/// An alias is live after a section exactly where it has come by then and is read in a later one. None is live
/// after the last section.
pub fn live_aliases_are_read_later()
    ensures live { (p : PlanRecord) (s k : ℕ) → Contains (live_after p s) k
        ↔ ((k < length p.entries) × (first_section p k ≤ s)
        × ((e : Edge) × Contains (edges p) e × (e.source ≡ k) × (s < section_of p e.reader))) }
    ensures none { (p : PlanRecord) → IsPlan p → (s : ℕ) → sections_in p ≤ s + 1 → live_after p s ≡ [] }
{}

/// A section needs the drawings of the aliases that come first in it. The last section that needs a drawing is
/// one that needs it and after which none does.
pub fn sections_need_the_drawings_of_their_aliases()
    ensures needs { (p : PlanRecord) (s d : ℕ) → Contains (needs p s) d
        ↔ ((k : ℕ) × (k < length p.entries) × (first_section p k ≡ s) × (drawing_of (entry_at p.entries k).job ≡ Some d)) }
    ensures last { (p : PlanRecord) (d last : ℕ) → last < sections_in p → Contains (needs p last) d
        → ((s : ℕ) → last < s → s < sections_in p → ¬ Contains (needs p s) d) → last_section_of p d ≡ Some last }
    ensures none { (p : PlanRecord) (d : ℕ) → ((s : ℕ) → s < sections_in p → ¬ Contains (needs p s) d) → last_section_of p d ≡ None }
{}

/// An alias reaches itself, and what an input of it reaches; also after aliases are added.
pub fn aliases_reach_what_their_inputs_reach()
    ensures itself { (entries : List Entry) (k : ℕ) → Reaches entries k k }
    ensures input { (entries : List Entry) (k input last : ℕ) → Contains (entry_at entries k).inputs input
        → Reaches entries input last → Reaches entries k last }
    ensures more { (entries : List Entry) (e : Entry) (k last : ℕ) → Reaches entries k last → Reaches (entries ++ e ∷ []) k last }
{}
