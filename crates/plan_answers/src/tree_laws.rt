//! Laws about the results of choices among join trees. The functions do nothing when they run.
ghost use Rattle.std.specs.Prelude.{◌≡◌, ◌≢◌, ◌≤◌, ◌⊎◌, ℕ, List, length, Result, Ok, Err};
ghost use Rattle.limits.specs.Profile.{greatest_budget, most_entries};
ghost use Rattle.order_search.specs.declared.refusal.PlanError.{PlanError};
ghost use Rattle.order_search.specs.declared.refusal.PlanError.TheVariants as error;
ghost use Rattle.plans.specs.declared.bushy.BushyPlan.{BushyPlan};
ghost use Rattle.bushy_plan.specs.BestTree.{IsBest, IsBestPlan};
ghost use Rattle.bushy_plan.specs.Causes.{IsCause};
ghost use Rattle.bushy_plan.specs.PlanTrees.{PlanTree};
ghost use Rattle.plan_answers.specs.AllTrees.{best_tree};
ghost use Rattle.plan_answers.specs.PromisedTrees.{IsPromised};
ghost use Rattle.plan_answers.specs.TreeAnswer.{tree_answer};

/// The computed tree is the best tree, and there is no other best tree.
pub fn best_trees()
    ensures best { (bounds : List ℕ) (n : ℕ) → 1 ≤ n → IsBest bounds n (best_tree bounds n) }
    ensures no_other_result { (bounds : List ℕ) (n : ℕ) (tree : PlanTree) → 1 ≤ n → IsBest bounds n tree → tree ≡ best_tree bounds n }
{}

/// Apart from `NoMemory`, the contract of `choose_bushy` allows exactly one result, `tree_answer`. Two clauses say this for the exits of
/// `choose_bushy`. A best plan within the budget is `tree_answer`. A refusal that has a cause and isn't `NoMemory` is `tree_answer`.
pub fn promised_tree_answers()
    ensures is_promised { (bounds scans : List ℕ) (budget : ℕ) → 1 ≤ length scans → length scans ≤ most_entries
        → IsPromised bounds scans budget (tree_answer bounds scans budget) }
    ensures no_other_result { (bounds scans : List ℕ) (budget : ℕ) (answer : Result BushyPlan PlanError) → 1 ≤ length scans → budget ≤ greatest_budget
        → IsPromised bounds scans budget answer → (answer ≡ Err error.NoMemory) ⊎ (answer ≡ tree_answer bounds scans budget) }
    ensures never_out_of_memory { (bounds scans : List ℕ) (budget : ℕ) → tree_answer bounds scans budget ≢ Err error.NoMemory }
    ensures chosen { (bounds scans : List ℕ) (budget : ℕ) (plan : BushyPlan) → 1 ≤ length scans → budget ≤ greatest_budget
        → IsBestPlan bounds (length scans) plan → plan.cost ≤ budget → plan.scans ≡ scans
        → tree_answer bounds scans budget ≡ Ok plan }
    ensures refused { (bounds scans : List ℕ) (budget : ℕ) (e : PlanError) → 1 ≤ length scans → e ≢ error.NoMemory
        → IsCause bounds (length scans) budget e → tree_answer bounds scans budget ≡ Err e }
{}
