//! Laws of numbers and their meanings.

ghost use Rattle.std.specs.Prelude.{◌≡◌, ◌≢◌, ◌<◌, ◌++◌, ℕ, List, Some, AllPairs, length, slice_get};
ghost use Rattle.xs_pixel.specs.Channels.{Channels};
ghost use Rattle.xs_alias.specs.declared.key.Key.{Key};
ghost use Rattle.xs_alias.specs.Meanings.{AreTinted, meaning, meanings, stands_for};
ghost use Rattle.xs_alias.specs.Numbers.{IsNumbering, IsGiven};

/// A number means what its key stands for.
pub fn numbers_mean_their_keys()
    ensures { (tints : List (List Channels)) (keys : List Key) → IsNumbering keys
        → (n : ℕ) (k : Key) → slice_get keys n ≡ Some k
        → meaning tints keys n ≡ stands_for tints (meanings tints keys) k }
{}

/// Old numbers keep their meaning when keys are added, as by each call that gives a number.
pub fn old_numbers_keep_their_meaning()
    ensures keys { (tints : List (List Channels)) (keys more : List Key) (n : ℕ) → n < length keys
        → meaning tints (keys ++ more) n ≡ meaning tints keys n }
    ensures given { (tints : List (List Channels)) (old new : List Key) (m n : ℕ) → IsGiven old new m
        → n < length old → meaning tints new n ≡ meaning tints old n }
{}

/// Equal keys have equal numbers; and different numbers mean different expressions where the tints differ
/// and each key's tint is one of them.
pub fn equal_expressions_have_equal_numbers()
    ensures keys { (keys : List Key) → IsNumbering keys → (m n : ℕ) (k : Key)
        → slice_get keys m ≡ Some k → slice_get keys n ≡ Some k → m ≡ n }
    ensures expressions { (tints : List (List Channels)) (keys : List Key) → IsNumbering keys
        → AllPairs (λ s t. s ≢ t) tints → AreTinted (length tints) keys
        → (m n : ℕ) → m < length keys → n < length keys
        → meaning tints keys m ≡ meaning tints keys n → m ≡ n }
{}
