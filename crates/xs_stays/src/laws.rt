//! Laws of what stays of spots.

ghost use Rattle.std.specs.Prelude.{◌≡◌, ◌≢◌, ℕ, Bool, List, true, false, is_none};
ghost use Rattle.xs_meaning.specs.Ends.{AllEnd};
ghost use Rattle.xs_meaning.specs.Expressions.{by_offsets, is_clear};
ghost use Rattle.xs_meaning.specs.Palettes.{Dropped};
ghost use Rattle.xs_pixel.specs.Points.{Point};
ghost use Rattle.xs_scene.specs.Records.{SceneRecord};
ghost use Rattle.xs_step.specs.declared.spot.Spot.{Spot};
ghost use Rattle.xs_step.specs.Readings.{answer_at};
ghost use Rattle.xs_step.specs.Steps.{step_of};
ghost use Rattle.xs_stays.specs.Sets.{styles_in, IsShort};
ghost use Rattle.xs_stays.specs.Stays.{stay_at, stay_by, stay_or, IsNormal};

use xs_meaning::filters::tint_is_canonical;

/// What stays of a spot is told step by step, and is None just where its expression is clear.
pub fn stays_are_told_step_by_step()
    ensures clear { (s : SceneRecord) (p : Spot) (f : Dropped) (o : Point)
        → is_clear (answer_at (by_offsets s) s p f o) ≡ is_none (stay_at s p) }
    ensures steps { (s : SceneRecord) → AllEnd s.sheets → (p : Spot) → stay_at s p ≡ stay_by s p (step_of s p) }
{
    tint_is_canonical();
}

/// Where no drawing stays, an expression knows no offset; and it knows of the dropped styles no more than which
/// of those that count are dropped.
pub fn what_does_not_stay_changes_nothing()
    ensures offset { (s : SceneRecord) (p : Spot) (f : Dropped) (o q : Point) → (stay_or (stay_at s p)).drawing ≡ false
        → answer_at (by_offsets s) s p f o ≡ answer_at (by_offsets s) s p f q }
    ensures dropped { (s : SceneRecord) (p : Spot) (f g : Dropped) (o : Point)
        → ((style : ℕ) → (stay_or (stay_at s p)).counts style ≡ true → f style ≡ g style)
        → answer_at (by_offsets s) s p f o ≡ answer_at (by_offsets s) s p g o }
{
    tint_is_canonical();
}

/// Where a drawing stays, another offset makes another expression; and so do dropped styles that differ in one
/// that counts.
pub fn what_stays_tells_expressions_apart()
    ensures offset { (s : SceneRecord) (p : Spot) (f g : Dropped) (o q : Point) → (stay_or (stay_at s p)).drawing ≡ true
        → o ≢ q → answer_at (by_offsets s) s p f o ≢ answer_at (by_offsets s) s p g q }
    ensures dropped { (s : SceneRecord) (p : Spot) (f g : Dropped) (o q : Point) (style : ℕ)
        → (stay_or (stay_at s p)).counts style ≡ true → f style ≢ g style
        → answer_at (by_offsets s) s p f o ≢ answer_at (by_offsets s) s p g q }
    ensures normal { (s : SceneRecord) (p : Spot) (f g : Dropped) (o q : Point)
        → IsNormal (stay_or (stay_at s p)) f o → IsNormal (stay_or (stay_at s p)) g q
        → answer_at (by_offsets s) s p f o ≡ answer_at (by_offsets s) s p g q → (f ≡ g) × (o ≡ q) }
{
    tint_is_canonical();
}

/// A set of styles has one list of flags whose last is set.
pub fn a_set_has_one_list_of_flags()
    ensures { (flags others : List Bool) → IsShort flags → IsShort others → styles_in flags ≡ styles_in others
        → flags ≡ others }
{}
