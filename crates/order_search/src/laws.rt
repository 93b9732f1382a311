//! Laws of the definitions. Each call does nothing.
ghost use Rattle.std.specs.Prelude.{◌≡◌, ◌==◌, ◌≤◌, ◌⊎◌, ◌↔◌, [], ◌∷◌, ℕ, List};
ghost use Rattle.std.specs.Int.{bit_at};
ghost use Rattle.std.specs.List.{Contains, IsDistinct};
ghost use Rattle.limits.specs.Profile.{greatest_budget};
ghost use Rattle.order_search.specs.Causes.{IsCause};
ghost use Rattle.order_search.specs.Examples.{dearer_prefix, equal_bounds, one_pair_past_bits, past_bits, three_entries};
ghost use Rattle.order_search.specs.Orders.{IsBest, cost, levels, prefixes, total};
ghost use Rattle.entry_sets.specs.Sets.{set_of};
ghost use Rattle.order_search.specs.declared.refusal.PlanError.{PlanError};
ghost use Rattle.order_search.specs.declared.refusal.PlanError.TheVariants as error;

/// A set is given as a number. Bit i of the number is 1 exactly if entry i is in the set.
pub fn sets_have_their_bits()
    ensures { (entries : List ℕ) (entry : ℕ) → IsDistinct ◌==◌ entries → (bit_at (set_of entries) entry ≡ 1) ↔ Contains entries entry }
{}

/// For any number of entries, and any bounds, exactly one order is best.
pub fn one_best_order()
    ensures exists { (bounds : List ℕ) (n : ℕ) → (best : List ℕ) × IsBest bounds n best }
    ensures unique { (bounds : List ℕ) (n : ℕ) (a b : List ℕ) → IsBest bounds n a → IsBest bounds n b → a ≡ b }
{}

/// If the best order costs at most the budget, only `NoMemory` is a possible refusal. In any case, at most one refusal other than `NoMemory` has a
/// cause.
pub fn one_answer()
    ensures accepted { (bounds : List ℕ) (n budget : ℕ) (best : List ℕ) (e : PlanError) → budget ≤ greatest_budget
        → IsBest bounds n best → cost bounds best ≤ budget → IsCause bounds n budget e → e ≡ error.NoMemory }
    ensures refused { (bounds : List ℕ) (n budget : ℕ) (e f : PlanError)
        → IsCause bounds n budget e → IsCause bounds n budget f
        → (e ≡ error.NoMemory) ⊎ ((f ≡ error.NoMemory) ⊎ (e ≡ f)) }
{}

/// The definitions, computed for three and four entries.
pub fn examples()
    ensures set { set_of (0 ∷ 2 ∷ []) ≡ 5 }
    ensures prefixes { prefixes (0 ∷ 2 ∷ 1 ∷ []) ≡ (0 ∷ []) ∷ (0 ∷ 2 ∷ []) ∷ (0 ∷ 2 ∷ 1 ∷ []) ∷ [] }
    ensures levels { levels three_entries (0 ∷ 2 ∷ 1 ∷ []) ≡ 2 ∷ 5 ∷ 6 ∷ [] }
    ensures cost { cost three_entries (0 ∷ 1 ∷ 2 ∷ []) ≡ 9 }
    ensures total { total three_entries (0 ∷ 2 ∷ 1 ∷ []) ≡ 13 }
    ensures best { IsBest three_entries 3 (0 ∷ 2 ∷ 1 ∷ []) }
    ensures budget { IsCause three_entries 3 5 (error.Budget 6) }
    ensures first_of_equal { IsBest equal_bounds 3 (0 ∷ 1 ∷ 2 ∷ []) }
    ensures dearer { IsBest dearer_prefix 4 (2 ∷ 1 ∷ 0 ∷ 3 ∷ []) }
    ensures past_bits { IsCause past_bits 3 6 error.PastBits }
    ensures avoided { IsBest one_pair_past_bits 3 (0 ∷ 2 ∷ 1 ∷ []) }
{}
