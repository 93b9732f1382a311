//! Laws of `best_order`, `plan_answer` and `bounds_of_sets`. Each call does nothing.
ghost use Rattle.std.specs.Prelude.{◌≡◌, ◌≢◌, ◌≤◌, ◌<◌, ◌^◌, ◌⊎◌, ℕ, List, length, min, slice_index, Result, Ok, Err};
ghost use Rattle.limits.specs.Profile.{most_budget, top_bound};
ghost use Rattle.plans.specs.declared.left_deep.Plan.{Plan};
ghost use Rattle.order_search.specs.Causes.{IsCause};
ghost use Rattle.order_search.specs.Orders.{IsBest, cost, levels};
ghost use Rattle.order_search.specs.declared.refusal.PlanError.{PlanError};
ghost use Rattle.order_search.specs.declared.refusal.PlanError.TheVariants as error;
ghost use Rattle.plan_answers.specs.BestOrder.{best_order};
ghost use Rattle.plan_answers.specs.Bounds.{bounds_of_sets};
ghost use Rattle.plan_answers.specs.PlanAnswer.{plan_answer};
ghost use Rattle.plan_answers.specs.Promised.{IsPromised};

/// The computed order is the best order.
pub fn best_orders()
    ensures best { (bounds : List ℕ) (n : ℕ) → IsBest bounds n (best_order bounds n) }
    ensures no_other_result { (bounds : List ℕ) (n : ℕ) (order : List ℕ) → IsBest bounds n order → order ≡ best_order bounds n }
{}

/// The promise of `choose` is true of `plan_answer`, and of no other result except `NoMemory`. The clause `chosen` says this for a returned plan, and
/// `refused` for a returned refusal. A plan of a best order within the budget, with its levels, is `plan_answer`. A refusal that has a cause and
/// isn't `NoMemory` is `plan_answer`.
pub fn promised_answers()
    ensures is_promised { (bounds scans : List ℕ) (budget : ℕ) → IsPromised bounds scans budget (plan_answer bounds scans budget) }
    ensures no_other_result { (bounds scans : List ℕ) (budget : ℕ) (answer : Result Plan PlanError) → budget ≤ most_budget
        → IsPromised bounds scans budget answer → (answer ≡ Err error.NoMemory) ⊎ (answer ≡ plan_answer bounds scans budget) }
    ensures never_out_of_memory { (bounds scans : List ℕ) (budget : ℕ) → plan_answer bounds scans budget ≢ Err error.NoMemory }
    ensures chosen { (bounds scans : List ℕ) (budget : ℕ) (plan : Plan) → budget ≤ most_budget
        → IsBest bounds (length scans) plan.order → cost bounds plan.order ≤ budget
        → plan.levels ≡ levels bounds plan.order → plan.scans ≡ scans → plan_answer bounds scans budget ≡ Ok plan }
    ensures refused { (bounds scans : List ℕ) (budget : ℕ) (e : PlanError) → e ≢ error.NoMemory
        → IsCause bounds (length scans) budget e → plan_answer bounds scans budget ≡ Err e }
{}

/// `bounds_of_sets` is the only list that has each set's bound, capped at the top bound, at the set's number.
pub fn bounds_of_all_sets()
    ensures one { (n : ℕ) (bound : ℕ → ℕ) (bounds : List ℕ) → length bounds ≡ 2 ^ n
        → ((set : ℕ) → set < 2 ^ n → slice_index bounds set ≡ min (bound set) top_bound) → bounds ≡ bounds_of_sets n bound }
    ensures length { (n : ℕ) (bound : ℕ → ℕ) → length (bounds_of_sets n bound) ≡ 2 ^ n }
    ensures at_set { (n : ℕ) (bound : ℕ → ℕ) (set : ℕ) → set < 2 ^ n
        → slice_index (bounds_of_sets n bound) set ≡ min (bound set) top_bound }
{}
