//! Laws of the definitions. Each call does nothing.
ghost use Rattle.std.specs.Prelude.{◌≡◌, ◌≤◌, ◌⊎◌, [], ◌∷◌, ℕ, List};
ghost use Rattle.limits.specs.Profile.{greatest_budget};
ghost use Rattle.plans.specs.TreeExamples.{join};
ghost use Rattle.bushy_plan.specs.BestTree.{IsTreeBefore, IsBest, cost, total};
ghost use Rattle.bushy_plan.specs.Causes.{IsCause};
ghost use Rattle.bushy_plan.specs.Examples.{one_pair, triangle};
ghost use Rattle.bushy_plan.specs.PlanTrees.{PlanTree, leaf_bits, joins_from, leaf, node};
ghost use Rattle.order_search.specs.declared.refusal.PlanError.{PlanError};
ghost use Rattle.order_search.specs.declared.refusal.PlanError.TheVariants as error;

/// For one or more entries, and for any bounds, exactly one tree is best.
pub fn one_best_tree()
    ensures exists { (bounds : List ℕ) (n : ℕ) → 1 ≤ n → (best : PlanTree) × IsBest bounds n best }
    ensures unique { (bounds : List ℕ) (n : ℕ) (a b : PlanTree) → IsBest bounds n a → IsBest bounds n b → a ≡ b }
{}

/// If the best tree costs at most the budget, only `NoMemory` is a possible refusal. In any case, at most one refusal other than `NoMemory` has a
/// cause.
pub fn one_answer()
    ensures accepted { (bounds : List ℕ) (n budget : ℕ) (best : PlanTree) (e : PlanError) → budget ≤ greatest_budget
        → IsBest bounds n best → cost bounds best ≤ budget → IsCause bounds n budget e → e ≡ error.NoMemory }
    ensures refused { (bounds : List ℕ) (n budget : ℕ) (e f : PlanError)
        → IsCause bounds n budget e → IsCause bounds n budget f
        → (e ≡ error.NoMemory) ⊎ ((f ≡ error.NoMemory) ⊎ (e ≡ f)) }
{}

/// The definitions, computed for one, two and three entries.
pub fn examples()
    ensures entries { leaf_bits (node (leaf 0) (leaf 2)) ≡ 5 }
    ensures one_entry { cost one_pair (leaf 0) ≡ 6 }
    ensures pair { joins_from one_pair 2 (node (leaf 0) (leaf 1)) ≡ join 0 1 12 ∷ [] }
    ensures triangle { joins_from triangle 3 (node (leaf 0) (node (leaf 1) (leaf 2))) ≡ join 1 2 5 ∷ join 0 3 9 ∷ [] }
    ensures cost { cost triangle (node (leaf 0) (node (leaf 1) (leaf 2))) ≡ 9 }
    ensures total { total triangle (node (leaf 0) (node (leaf 1) (leaf 2))) ≡ 14 }
    ensures best_pair { IsBest one_pair 2 (node (leaf 0) (leaf 1)) }
    ensures best_triangle { IsBest triangle 3 (node (leaf 0) (node (leaf 1) (leaf 2))) }
    ensures budget { IsCause one_pair 2 11 (error.Budget 12) }
    ensures by_left { IsTreeBefore (node (leaf 0) (node (leaf 1) (leaf 2))) (node (node (leaf 0) (leaf 1)) (leaf 2)) }
{}
