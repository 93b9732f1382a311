//! Laws about plans over join trees. Each function does nothing; its contract is the law.
ghost use Rattle.std.specs.Prelude.{◌≡◌, ℕ, ◌<◌, ◌≤◌, [], ◌∷◌, slice_index};
ghost use Rattle.std.specs.List.{AllByRecursion};
ghost use Rattle.limits.specs.Profile.{most_entries};
ghost use Rattle.plans.specs.declared.left_deep.Plan.{Plan};
ghost use Rattle.plans.specs.Examples.{plan_of as order_plan};
ghost use Rattle.plans.specs.LeftDeep.{IsPlan};
ghost use Rattle.plans.specs.TreeExamples.{join, plan_of};
ghost use Rattle.plans.specs.declared.bushy.BushyPlan.{BushyPlan};
ghost use Rattle.plans.specs.Orders.{IsOrderTree, level_node, order_of_tree, tree_of_order};
ghost use Rattle.plans.specs.TreePlans.{IsTreePlan, BoundsAreWithin};

/// Examples of the definitions, for one entry and for three.
pub fn tree_examples()
    ensures one_entry { IsTreePlan 1 (plan_of [] (7 ∷ []) 7) }
    ensures three { IsTreePlan 3 (plan_of (join 1 2 5 ∷ join 0 3 9 ∷ []) (3 ∷ 3 ∷ 3 ∷ []) 9) }
    ensures itself { ¬ IsTreePlan 3 (plan_of (join 1 2 5 ∷ join 0 4 9 ∷ []) (3 ∷ 3 ∷ 3 ∷ []) 9) }
    ensures twice { ¬ IsTreePlan 3 (plan_of (join 1 2 5 ∷ join 2 3 9 ∷ []) (3 ∷ 3 ∷ 3 ∷ []) 9) }
    ensures missing { ¬ IsTreePlan 3 (plan_of (join 1 2 5 ∷ []) (3 ∷ 3 ∷ 3 ∷ []) 5) }
    ensures within { BoundsAreWithin 9 (plan_of (join 1 2 5 ∷ join 0 3 9 ∷ []) (3 ∷ 3 ∷ 3 ∷ []) 9) }
    ensures too_large { ¬ BoundsAreWithin 8 (plan_of (join 1 2 5 ∷ join 0 3 9 ∷ []) (3 ∷ 3 ∷ 3 ∷ []) 9) }
{}

/// Examples of trees of orders, for one entry and for three. Level 1 is the leaf of the order's first entry.
pub fn order_examples()
    ensures one_entry { tree_of_order (order_plan (0 ∷ []) (7 ∷ []) (7 ∷ [])) ≡ plan_of [] (7 ∷ []) 7 }
    ensures three { tree_of_order (order_plan (2 ∷ 0 ∷ 1 ∷ []) (3 ∷ 4 ∷ 5 ∷ []) (5 ∷ 9 ∷ 8 ∷ []))
        ≡ plan_of (join 2 0 9 ∷ join 3 1 8 ∷ []) (3 ∷ 4 ∷ 5 ∷ []) 9 }
    ensures read { order_of_tree (plan_of (join 2 0 9 ∷ join 3 1 8 ∷ []) (3 ∷ 4 ∷ 5 ∷ []) 9)
        ≡ order_plan (2 ∷ 0 ∷ 1 ∷ []) (3 ∷ 4 ∷ 5 ∷ []) (5 ∷ 9 ∷ 8 ∷ []) }
    ensures first { level_node 3 (2 ∷ 0 ∷ 1 ∷ []) 1 ≡ 2 }
    ensures last { level_node 3 (2 ∷ 0 ∷ 1 ∷ []) 3 ≡ 4 }
{}

/// The tree of an order is a plan over a join tree, and each of its right children is a leaf.
pub fn order_trees()
    ensures trees { (n : ℕ) (plan : Plan) → 1 ≤ n → n ≤ most_entries → IsPlan n plan → IsTreePlan n (tree_of_order plan) }
    ensures leaves { (n : ℕ) (plan : Plan) → IsPlan n plan → AllByRecursion (λ join. join.right < n) (tree_of_order plan).joins }
{}

/// An order is read from its tree as it was, if level 1 has the bound of its scan. Whatever that bound was, the tree is that of the order that is
/// read from it. The tree of an order is a plan over a join tree.
pub fn orders_are_read()
    ensures read { (n : ℕ) (plan : Plan) → 1 ≤ n → IsPlan n plan → slice_index plan.levels 0 ≡ slice_index plan.scans (slice_index plan.order 0)
        → order_of_tree (tree_of_order plan) ≡ plan }
    ensures made { (n : ℕ) (plan : Plan) → 1 ≤ n → IsPlan n plan → IsOrderTree n (tree_of_order plan) }
    ensures plans { (n : ℕ) (tree : BushyPlan) → 1 ≤ n → n ≤ most_entries → IsOrderTree n tree → IsTreePlan n tree }
{}
