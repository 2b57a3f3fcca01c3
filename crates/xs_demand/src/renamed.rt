//! Laws of expressions whose drawings have other numbers.

ghost use Rattle.std.specs.Prelude.{◌≡◌, ◌<◌, ℕ, List, All, map};
ghost use Rattle.xs_pixel.specs.Picture.{Pictures};
ghost use Rattle.xs_pixel.specs.Points.{Point};
ghost use Rattle.xs_rect.specs.Area.{Area};
ghost use Rattle.xs_meaning.specs.Expressions.{Expr, drawings_of, reach_of, is_clear};
ghost use Rattle.xs_demand.specs.Aliases.{aliases_of, size_of};
ghost use Rattle.xs_demand.specs.Images.{image_of};
ghost use Rattle.xs_demand.specs.Renamed.{renamed, renamed_alias, AreDistinct, HasBelow};
ghost use Rattle.xs_demand.specs.Tints.{tints_within};

/// An expression with renamed drawings shows what it would show with the old numbers over pictures that are
/// found by the new ones. It has the same drawings under their new numbers and the same tints, looks as far, is
/// as large, and is clear where it was.
pub fn names_of_drawings_change_no_image()
    ensures images { (names : ℕ → ℕ) (pictures : Pictures) (e : Expr) (q : Point)
        → image_of pictures (renamed names e) q ≡ image_of (λ d. pictures (names d)) e q }
    ensures drawings { (names : ℕ → ℕ) (e : Expr) → drawings_of (renamed names e) ≡ map names (drawings_of e) }
    ensures tints { (names : ℕ → ℕ) (e : Expr) → tints_within (renamed names e) ≡ tints_within e }
    ensures reach { (names : ℕ → ℕ) (e : Expr) → reach_of (renamed names e) ≡ reach_of e }
    ensures size { (names : ℕ → ℕ) (e : Expr) → size_of (renamed names e) ≡ size_of e }
    ensures clear { (names : ℕ → ℕ) (e : Expr) → is_clear (renamed names e) ≡ is_clear e }
{}

/// Where each drawing has a name of its own, roots with renamed drawings have the aliases of the roots, in the
/// same order, with renamed drawings.
pub fn renamed_roots_have_the_renamed_aliases()
    ensures { (count : ℕ) (names : ℕ → ℕ) → AreDistinct count names → (tiles : List Area) (roots : List Expr)
        → All (HasBelow count) roots
        → aliases_of tiles (map (renamed names) roots) ≡ map (renamed_alias names) (aliases_of tiles roots) }
{}

/// An expression stays as it is where each of its drawings is named by its own number.
pub fn own_names_change_no_expression()
    ensures { (count : ℕ) (names : ℕ → ℕ) → ((d : ℕ) → d < count → names d ≡ d) → (e : Expr) → HasBelow count e
        → renamed names e ≡ e }
{}
