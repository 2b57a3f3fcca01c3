//! Laws of the roots of rows: what their expressions are like, and all that they enter.

ghost use Rattle.std.specs.Prelude.{◌<◌, ◌≤◌, ◌+◌, ℕ, List, [], All, length, drop};
ghost use Rattle.xs_meaning.specs.Expressions.{Expr, reach_of, root_of};
ghost use Rattle.xs_scene.specs.InRange.{IsInRange};
ghost use Rattle.xs_scene.specs.Records.{SceneRecord};
ghost use Rattle.xs_demand.specs.Blocks.{Spread, enter, enter_rows};
ghost use Rattle.xs_demand.specs.Fit.{IsFit};
ghost use Rattle.xs_demand.specs.Renamed.{renamed, HasBelow};

use xs_meaning::expressions::offsets_of_drawings_are_bounded;

/// The root of a row of a scene in range is fit for a plan with so many drawings, where its own are among
/// them: they stand at offsets that are not too far, radii are those of nodes, and no input is clear.
pub fn the_roots_of_rows_are_fit()
    ensures { (s : SceneRecord) → IsInRange s → (count row : ℕ) → HasBelow count (root_of s row)
        → IsFit count (root_of s row) }
{
    offsets_of_drawings_are_bounded();
}

/// A fit expression stays fit where its drawings take names that are below another number.
pub fn renaming_keeps_fit()
    ensures { (count named : ℕ) (names : ℕ → ℕ) → ((d : ℕ) → d < count → names d < named)
        → (e : Expr) → IsFit count e → IsFit named (renamed names e) }
{}

/// All that a fit expression enters is fit, and so is all that rows enter where their roots are.
pub fn fit_roots_enter_fit_spreads()
    ensures added { (count : ℕ) (e : Expr) (g : ℕ) (l : List Spread) → IsFit count e
        → All (λ x. IsFit count x.expr) (drop (length l) (enter e g l)) }
    ensures rows { (count : ℕ) (roots : List Expr) → All (IsFit count) roots
        → All (λ x. IsFit count x.expr) (enter_rows roots []) }
{}

/// The growth of a spread and the reach of its expression are together at most those of the expression that
/// entered it. So no growth, and no growth with its expression's reach, is greater than the reach of the root
/// that looks farthest.
pub fn growth_stays_within_the_reach()
    ensures added { (e : Expr) (g : ℕ) (l : List Spread)
        → All (λ x. x.growth + reach_of x.expr ≤ g + reach_of e) (drop (length l) (enter e g l)) }
    ensures rows { (most : ℕ) (roots : List Expr) → All (λ e. reach_of e ≤ most) roots
        → All (λ x. x.growth + reach_of x.expr ≤ most) (enter_rows roots []) }
{}
