//! Laws of the limits of a demand.

ghost use Rattle.std.specs.Prelude.{◌≡◌, ◌<◌, ◌≤◌, ◌+◌, ◌*◌, ◌↔◌, ℕ, Some, None, List, [], All, length};
ghost use Rattle.xs_rect.specs.Area.{Area};
ghost use Rattle.xs_meaning.specs.Expressions.{Expr, reach_of};
ghost use Rattle.xs_plan.specs.declared.limits.TheConstants.{MOST_ALIASES, MOST_READS, FARTHEST_REACH};
ghost use Rattle.xs_demand.specs.Aliases.{Alias, inputs_in, aliases_of};
ghost use Rattle.xs_demand.specs.Limits.{Limit, Reach, Aliases, Reads, NonePassed, PassedFirst, limit_passed, first_limit, first_limit_from};

/// With a root the reach is passed where it looks too far; else the aliases where there are too many; else
/// the reads where there are too many; and else nothing.
pub fn limits_are_tried_in_order()
    ensures reach { (root : Expr) (l : List Alias) (visited : ℕ)
        → limit_passed root l visited ≡ Some Reach ↔ FARTHEST_REACH < reach_of root }
    ensures aliases { (root : Expr) (l : List Alias) (visited : ℕ)
        → limit_passed root l visited ≡ Some Aliases
        ↔ ((reach_of root ≤ FARTHEST_REACH) × (MOST_ALIASES < length l)) }
    ensures reads { (root : Expr) (l : List Alias) (visited : ℕ)
        → limit_passed root l visited ≡ Some Reads
        ↔ ((reach_of root ≤ FARTHEST_REACH) × (length l ≤ MOST_ALIASES)
        × (MOST_READS < inputs_in l + visited)) }
    ensures none { (root : Expr) (l : List Alias) (visited : ℕ)
        → limit_passed root l visited ≡ None
        ↔ ((reach_of root ≤ FARTHEST_REACH) × (length l ≤ MOST_ALIASES)
        × (inputs_in l + visited ≤ MOST_READS)) }
{}

/// There is no first limit exactly where none is passed at any row and tile; and the first limit is the one
/// that is passed at some row and tile with none passed before.
pub fn the_first_limit_is_first()
    ensures none { (tiles : List Area) (roots : List Expr)
        → first_limit tiles roots ≡ None ↔ NonePassed tiles roots }
    ensures some { (tiles : List Area) (roots : List Expr) (what : Limit)
        → first_limit tiles roots ≡ Some what ↔ PassedFirst tiles roots what }
{}

/// The first limit is found on the way through the rows and tiles, with the aliases so far and the number
/// of rows and tiles so far.
pub fn limits_are_found_on_the_way()
    ensures { (tiles : List Area) (roots : List Expr) → first_limit tiles roots ≡ first_limit_from tiles roots [] 0 }
{}

/// No limit is passed exactly where no root looks too far and, of all rows and tiles together, neither the
/// aliases nor the reads are too many.
pub fn no_limit_is_passed_where_all_fits()
    ensures { (tiles : List Area) (roots : List Expr) → 0 < length tiles
        → first_limit tiles roots ≡ None
        ↔ (All (λ e. reach_of e ≤ FARTHEST_REACH) roots × (length (aliases_of tiles roots) ≤ MOST_ALIASES)
        × (inputs_in (aliases_of tiles roots) + length roots * length tiles ≤ MOST_READS)) }
{}
