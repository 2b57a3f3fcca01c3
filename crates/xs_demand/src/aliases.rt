//! Laws of the aliases of rows. Each law stands on a function that does nothing: its contract is the law.

ghost use Rattle.std.specs.Prelude.{◌≡◌, ◌≢◌, ◌⊎◌, ◌<◌, ◌≤◌, ◌+◌, ◌*◌, ◌↔◌, ◌++◌, ℕ, List, All, AllPairs, Contains, length};
ghost use Rattle.xs_rect.specs.Area.{Area};
ghost use Rattle.xs_meaning.specs.Expressions.{Expr};
ghost use Rattle.xs_plan.specs.Record.{PlanRecord};
ghost use Rattle.xs_plan.specs.Sections.{first_row};
ghost use Rattle.xs_demand.specs.Aliases.{Alias, alias, inputs_of, inputs_in, visit, visit_tiles, aliases_of, Reaches, RootReaches, size_of};
ghost use Rattle.xs_demand.specs.Limits.{root_in};
ghost use Rattle.xs_demand.specs.Shown.{StandsAt, ShowsRoots, root_aliases};

/// An expression stands on a rectangle once, however many rows and expressions use it.
pub fn no_alias_stands_twice()
    ensures { (tiles : List Area) (roots : List Expr) → AllPairs (λ x y. x ≢ y) (aliases_of tiles roots) }
{}

/// An alias stands behind each of its inputs.
pub fn inputs_stand_before_what_they_serve()
    ensures { (tiles : List Area) (roots : List Expr) (x input : Alias) (k : ℕ)
        → StandsAt (aliases_of tiles roots) x k → Contains (inputs_of x) input
        → (j : ℕ) × (j < k) × StandsAt (aliases_of tiles roots) input j }
{}

/// An alias is that of a row and tile, or an input of another.
pub fn every_alias_has_a_reader()
    ensures { (tiles : List Area) (roots : List Expr) (y : Alias) → Contains (aliases_of tiles roots) y
        → Contains (root_aliases tiles roots) y
        ⊎ ((x : Alias) × Contains (aliases_of tiles roots) x × Contains (inputs_of x) y) }
{}

/// A visit keeps the list and appends only what the visited alias reaches; and the aliases of rows are
/// exactly what their roots reach on the tiles.
pub fn visits_add_what_they_reach()
    ensures visit { (e : Expr) (rect : Area) (l : List Alias)
        → (added : List Alias) × (visit e rect l ≡ l ++ added) × All (Reaches (alias e rect)) added }
    ensures rows { (tiles : List Area) (roots : List Expr) (y : Alias)
        → Contains (aliases_of tiles roots) y ↔ ((e : Expr) × Contains roots e × RootReaches tiles e y) }
{}

/// The row after which a plan has an alias is the first whose root reaches it.
pub fn first_rows_are_right()
    ensures reached { (tiles : List Area) (roots : List Expr) (p : PlanRecord) → ShowsRoots tiles roots p
        → (x : Alias) (k : ℕ) → StandsAt (aliases_of tiles roots) x k
        → RootReaches tiles (root_in roots (first_row p k)) x }
    ensures first { (tiles : List Area) (roots : List Expr) (p : PlanRecord) → ShowsRoots tiles roots p
        → (x : Alias) (k : ℕ) → StandsAt (aliases_of tiles roots) x k
        → (row : ℕ) → row < first_row p k → ¬ (RootReaches tiles (root_in roots row) x) }
{}

/// A row adds at most as many aliases as its root has expressions for each tile; and its reads, one for
/// each input that it adds and one for each tile, are no more.
pub fn rows_add_few()
    ensures aliases { (e : Expr) (tiles : List Area) (l : List Alias)
        → length (visit_tiles e tiles l) ≤ length l + length tiles * size_of e }
    ensures inputs { (e : Expr) (tiles : List Area) (l : List Alias)
        → inputs_in (visit_tiles e tiles l) + length tiles ≤ inputs_in l + length tiles * size_of e }
{}
