//! Laws about the entries at the leaves below each node of a plan. Each function does nothing.
ghost use Rattle.std.specs.Prelude.{◌≡◌, ℕ, ◌-◌, ◌<◌, ◌≤◌, ◌==◌, length, slice_index, take};
ghost use Rattle.std.specs.List.{AllByRecursion, IsDistinct};
ghost use Rattle.plans.specs.declared.left_deep.Plan.{Plan};
ghost use Rattle.plans.specs.LeftDeep.{IsPlan};
ghost use Rattle.plans.specs.declared.bushy.BushyPlan.{BushyPlan};
ghost use Rattle.plans.specs.Orders.{level_node, tree_of_order};
ghost use Rattle.plans.specs.TreePlans.{IsTreePlan};
ghost use Rattle.tree_rows.specs.Rooms.{bound_at};
ghost use Rattle.tree_rows.specs.Trees.{entries_at, node_count};

/// Each entry occurs at most once among the leaves below a node, and all of these are entries of the plan. The root has all entries.
pub fn leaves_are_different_entries()
    ensures once { (n : ℕ) (plan : BushyPlan) (node : ℕ) → IsTreePlan n plan → node < node_count plan
        → IsDistinct ◌==◌ (entries_at plan node) }
    ensures within { (n : ℕ) (plan : BushyPlan) (node : ℕ) → IsTreePlan n plan → node < node_count plan
        → AllByRecursion (λ entry. entry < n) (entries_at plan node) }
    ensures all { (n : ℕ) (plan : BushyPlan) → IsTreePlan n plan → length (entries_at plan (node_count plan - 1)) ≡ n }
{}

/// In the tree of an order, the node of level k has the first k entries of the order at its leaves, from left to right. From level 2 on, the bound of
/// the level is the bound of its node.
pub fn levels_are_nodes()
    ensures entries { (n : ℕ) (plan : Plan) (k : ℕ) → IsPlan n plan → 1 ≤ k → k ≤ n
        → entries_at (tree_of_order plan) (level_node n plan.order k) ≡ take k plan.order }
    ensures bounds { (n : ℕ) (plan : Plan) (k : ℕ) → IsPlan n plan → 2 ≤ k → k ≤ n
        → bound_at (tree_of_order plan) (level_node n plan.order k) ≡ slice_index plan.levels (k - 1) }
{}
