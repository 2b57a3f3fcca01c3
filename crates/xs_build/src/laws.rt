//! Laws of expressions that are laid over one another, and of states.

ghost use Rattle.std.specs.Prelude.{◌≡◌, ◌<◌, ◌++◌, ℕ, Bool, false, List, [], ◌∷◌, All, length, map};
ghost use Rattle.xs_pixel.specs.Points.{Point};
ghost use Rattle.xs_scene.specs.Records.{SceneRecord};
ghost use Rattle.xs_meaning.specs.Expressions.{Expr, is_clear, by_offsets};
ghost use Rattle.xs_meaning.specs.Walk.{composed_by};
ghost use Rattle.xs_demand.specs.Blocks.{Spread, enter, IsClosed};
ghost use Rattle.xs_demand.specs.Renamed.{renamed};
ghost use Rattle.xs_step.specs.Readings.{answer_at};
ghost use Rattle.xs_build.specs.declared.state.State.{State};
ghost use Rattle.xs_build.specs.States.{dropped_in, offset_of, AreApart, IsInNormalForm};
ghost use Rattle.xs_build.specs.Stacks.{stacked, seen_down, laid_over, enter_each, put_over};

use xs_stays::laws::what_stays_tells_expressions_apart;

/// A row is what its columns and nodes are, from the topmost one down, each over all below it; those that are
/// clear vanish. So it is with renamed drawings.
pub fn rows_are_stacks_of_what_is_seen()
    ensures composed { (s : SceneRecord) (es : List (Point → Expr)) (o : Point)
        → composed_by (by_offsets s) es o ≡ stacked (seen_down (map (λ e. e o) es)) }
    ensures seen { (es : List Expr) → All (λ e. is_clear e ≡ false) (seen_down es) }
    ensures named { (names : ℕ → ℕ) (es : List Expr)
        → renamed names (stacked (seen_down es)) ≡ stacked (seen_down (map (renamed names) es)) }
{}

/// Where expressions lie over one another and none is clear, entering the whole is entering each from the
/// topmost one down, and then putting the pairs from the bottom up.
pub fn stacks_are_entered_down_and_put_up()
    ensures { (es : List Expr) (lowest : Expr) (g : ℕ) (l : List Spread) → IsClosed l
        → All (λ e. is_clear e ≡ false) (es ++ lowest ∷ [])
        → enter (stacked (es ++ lowest ∷ [])) g l
        ≡ put_over es lowest g (enter_each (es ++ lowest ∷ []) g l) }
{}

/// States of one spot on the same tiles that are in normal form and differ have different expressions, where
/// different numbers stand for different sets. So a spot has no more such states than expressions.
pub fn normal_states_have_expressions_of_their_own()
    ensures { (s : SceneRecord) (sets : List (List Bool)) (t u : State) → AreApart sets
        → t.dropped < length sets → u.dropped < length sets → t.spot ≡ u.spot → t.growth ≡ u.growth
        → IsInNormalForm s sets t → IsInNormalForm s sets u
        → answer_at (by_offsets s) s t.spot (dropped_in sets t.dropped) (offset_of t)
        ≡ answer_at (by_offsets s) s u.spot (dropped_in sets u.dropped) (offset_of u)
        → t ≡ u }
{
    what_stays_tells_expressions_apart();
}
