//! Laws of what was entered.

ghost use Rattle.std.specs.Prelude.{◌≡◌, ◌<◌, ◌≤◌, ◌+◌, ℕ, List, length, drop, slice_get};
ghost use Rattle.xs_meaning.specs.Expressions.{Expr};
ghost use Rattle.xs_demand.specs.Blocks.{Spread, Puts, Enters, enter, inputs_entered};
ghost use Rattle.xs_entered.specs.Entered.{spread_at, tints_entered};

/// What was entered keeps its number when more is entered.
pub fn entered_spreads_keep_their_numbers()
    ensures put { (old new : List Spread) (x : Spread) (n m : ℕ) → Puts old new x n → m < length old
        → slice_get new m ≡ slice_get old m }
    ensures entered { (old new : List Spread) (e : Expr) (g n m : ℕ) → Enters old new e g n → m < length old
        → slice_get new m ≡ slice_get old m }
    ensures spreads { (old new : List Spread) (e : Expr) (g n m : ℕ) → Enters old new e g n → m < length old
        → spread_at new m ≡ spread_at old m }
    ensures put_more { (old new : List Spread) (x : Spread) (n : ℕ) → Puts old new x n → length old ≤ length new }
    ensures enter_more { (old new : List Spread) (e : Expr) (g n : ℕ) → Enters old new e g n
        → length old ≤ length new }
{}

/// What is entered besides is told apart from what was there: it counts for itself, and tints that were entered
/// keep their numbers.
pub fn entered_spreads_add_to_the_old()
    ensures count { (e : Expr) (g : ℕ) (l : List Spread)
        → length (enter e g l) ≡ length l + length (drop (length l) (enter e g l)) }
    ensures inputs { (e : Expr) (g : ℕ) (l : List Spread)
        → inputs_entered (enter e g l) ≡ inputs_entered l + inputs_entered (drop (length l) (enter e g l)) }
    ensures tints { (e : Expr) (g t : ℕ) (l : List Spread) → t < length (tints_entered l)
        → slice_get (tints_entered (enter e g l)) t ≡ slice_get (tints_entered l) t }
    ensures more_tints { (e : Expr) (g : ℕ) (l : List Spread)
        → length (tints_entered l) ≤ length (tints_entered (enter e g l)) }
    ensures few_tints { (l : List Spread) → length (tints_entered l) ≤ length l }
{}
