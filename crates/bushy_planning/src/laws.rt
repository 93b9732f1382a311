//! A law: no bound of a best join tree is too low. The function does nothing; its contract is the law.
ghost use Rattle.std.specs.Prelude.{◌≡◌, ◌<◌, ◌≤◌, ℕ, List, Ok, length};
ghost use Rattle.limits.specs.Profile.{most_entries, most_rows};
ghost use Rattle.query_types.specs.declared.types.Query.{Query};
ghost use Rattle.sql_meaning.specs.Tables.{Tables, row_counts};
ghost use Rattle.plans.specs.declared.bushy.BushyPlan.{BushyPlan};
ghost use Rattle.plans.specs.TreePlans.{IsTreePlan, BoundsAreWithin};
ghost use Rattle.bushy_plan.specs.BestTree.{IsBestPlan};
ghost use Rattle.plan_answers.specs.TreeAnswer.{tree_answer};
ghost use Rattle.tree_rows.specs.Rooms.{bound_at};
ghost use Rattle.tree_rows.specs.Trees.{node_count};
ghost use Rattle.bushy_join.specs.Trees.{node_rows, IsTreePlanOf};
ghost use Rattle.planning.specs.Standing.{BoundLevels, BoundLists};

/// There are two premises. Each set's bound is the top bound, or isn't below the number of rows of any level over the set's lists. Each scan's bound
/// is at least the number of its listed rows, and at most the number of rows of its table. Then no bound of a best tree is too low, if all its bounds
/// are at most 4,000,000. No bound of `tree_answer` is too low either, if the budget is at most 4,000,000 rows.
pub fn best_trees_are_never_under()
    ensures over_bounds { (query : Query) (tables : Tables) (lists : List (List ℕ)) (sets : List ℕ) (plan : BushyPlan)
        → BoundLevels query tables lists sets → BoundLists query tables lists plan.scans
        → IsTreePlan (length query.from) plan → BoundsAreWithin most_rows plan → IsBestPlan sets (length query.from) plan
        → IsTreePlanOf query tables lists plan }
    ensures plan { (query : Query) (tables : Tables) (lists : List (List ℕ)) (sets scans : List ℕ) (budget : ℕ) (plan : BushyPlan)
        → BoundLists query tables lists scans → 1 ≤ length query.from → length query.from ≤ most_entries
        → tree_answer sets scans budget ≡ Ok plan → IsTreePlan (length query.from) plan }
    ensures scans { (query : Query) (tables : Tables) (lists : List (List ℕ)) (sets scans : List ℕ) (budget : ℕ) (plan : BushyPlan)
        → BoundLists query tables lists scans → 1 ≤ length query.from → length query.from ≤ most_entries
        → tree_answer sets scans budget ≡ Ok plan → plan.scans ≡ scans }
    ensures nodes { (query : Query) (tables : Tables) (lists : List (List ℕ)) (sets scans : List ℕ) (budget : ℕ) (plan : BushyPlan)
        (node : ℕ) → BoundLevels query tables lists sets → BoundLists query tables lists scans
        → 1 ≤ length query.from → length query.from ≤ most_entries → budget ≤ most_rows
        → tree_answer sets scans budget ≡ Ok plan → node < node_count plan
        → length (node_rows query tables lists plan node) ≤ bound_at plan node }
    // over tables of at most 4,000,000 rows each
    ensures over_lists { (query : Query) (tables : Tables) (lists : List (List ℕ)) (sets scans : List ℕ) (budget : ℕ) (plan : BushyPlan)
        → BoundLevels query tables lists sets → BoundLists query tables lists scans
        → 1 ≤ length query.from → length query.from ≤ most_entries → budget ≤ most_rows
        → ((entry : ℕ) → entry < length query.from → row_counts tables entry ≤ most_rows)
        → tree_answer sets scans budget ≡ Ok plan → IsTreePlanOf query tables lists plan }
{}
