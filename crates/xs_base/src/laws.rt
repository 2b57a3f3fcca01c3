//! Laws of lists that hold each number once.

ghost use Rattle.std.specs.Prelude.{◌≡◌, ◌≢◌, ℕ, ◌++◌, [], ◌∷◌, List, Contains, All, AllPairs};
ghost use Rattle.xs_base.specs.Once.{fresh, each_once, with_one, with_each};

/// Lists are gone through one after another, and a list of which each number was taken once has the same
/// numbers, each once, and the same new ones.
pub fn each_number_is_taken_once()
    ensures one_after_another { (known xs ys : List ℕ)
        → fresh known (xs ++ ys) ≡ fresh known xs ++ fresh (known ++ fresh known xs) ys }
    ensures all_of_the_first_known { (known xs ys : List ℕ)
        → fresh known (xs ++ ys) ≡ fresh known xs ++ fresh (known ++ xs) ys }
    ensures once_is_enough { (known xs : List ℕ) → fresh known (each_once xs) ≡ fresh known xs }
    ensures nothing_new { (known xs : List ℕ) → All (Contains known) xs → fresh known xs ≡ [] }
    ensures members { (known xs : List ℕ) (d : ℕ) → Contains (fresh known xs) d → Contains xs d }
    ensures found { (known xs : List ℕ) → All (Contains (known ++ fresh known xs)) xs }
    ensures alone { (known : List ℕ) (d : ℕ) → with_each known (d ∷ []) ≡ with_one known d }
    ensures once { (xs : List ℕ) → AllPairs (λ a b. a ≢ b) (each_once xs) }
{}
