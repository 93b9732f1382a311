//! The results of choices among join trees over few entries.
ghost use Rattle.std.specs.Prelude.{◌≡◌, ◌-◌, ◌^◌, true, [], ◌∷◌, Ok, Err};
ghost use Rattle.order_search.specs.declared.refusal.PlanError.TheVariants as error;
ghost use Rattle.plans.specs.TreeExamples.{join, plan_of};
ghost use Rattle.bushy_plan.specs.Examples.{one_pair, triangle};
ghost use Rattle.bushy_plan.specs.PlanTrees.{leaf, node};
ghost use Rattle.plan_answers.specs.AllTrees.{all_trees, best_tree, is_before};
ghost use Rattle.plan_answers.specs.TreeAnswer.{tree_answer};

/// The results of choices among the trees over one, two and three entries. In one example three trees have the same cost and the same total. The best
/// of these trees has the left set with the least number.
pub fn small_trees()
    ensures trees { all_trees 3 ≡ node (node (leaf 0) (leaf 1)) (leaf 2) ∷ node (node (leaf 0) (leaf 2)) (leaf 1) ∷ node (leaf 0) (node (leaf 1) (leaf 2)) ∷ [] }
    ensures by_left { is_before (node (leaf 0) (node (leaf 1) (leaf 2))) (node (node (leaf 0) (leaf 1)) (leaf 2)) ≡ true }
    ensures best { best_tree triangle 3 ≡ node (leaf 0) (node (leaf 1) (leaf 2)) }
    ensures plan { tree_answer triangle (3 ∷ 3 ∷ 3 ∷ []) 9 ≡ Ok (plan_of (join 1 2 5 ∷ join 0 3 9 ∷ []) (3 ∷ 3 ∷ 3 ∷ []) 9) }
    ensures budget { tree_answer one_pair (6 ∷ 5 ∷ []) 11 ≡ Err (error.Budget 12) }
    ensures past_bits { tree_answer (1 ∷ (2 ^ 128 - 1) ∷ []) (2 ∷ []) 6 ≡ Err error.PastBits }
    ensures greatest_cost_refused { tree_answer (1 ∷ (2 ^ 128 - 2) ∷ []) (2 ∷ []) 6 ≡ Err (error.Budget (2 ^ 128 - 2)) }
{}
