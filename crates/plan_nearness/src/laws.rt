//! Laws about the nearness of a plan's bounds to the bounds without compression. Each call does nothing: its contract is the law.
ghost use Rattle.std.specs.Prelude.{◌≡◌, ◌*◌, ◌+◌, ◌<◌, ◌≤◌, ◌^◌, ℕ, Ok, length, slice_index, take};
ghost use Rattle.limits.specs.Profile.{most_entries, default_accuracy};
ghost use Rattle.plans.specs.declared.left_deep.Plan.{Plan};
ghost use Rattle.plans.specs.declared.bushy.BushyPlan.{BushyPlan};
ghost use Rattle.plan_answers.specs.TreeAnswer.{tree_answer};
ghost use Rattle.query_types.specs.declared.types.Query.{Query};
ghost use Rattle.sql_meaning.specs.Tables.{Tables};
ghost use Rattle.planning.specs.Bounds.{scan_bounds_of, set_bounds_of};
ghost use Rattle.planning.specs.Plans.{planned};
ghost use Rattle.plan_nearness.specs.Nearness.{FiltersNoEntry, LevelsAreNear, NodesAreNear, uncompressed_bound};

/// If no conjunct names exactly one entry, the levels of a plan from statistics of whole columns have bounds near the uncompressed bounds.
pub fn levels_are_near()
    ensures { (query : Query) (tables : Tables) (accuracy budget : ℕ) (plan : Plan)
        → FiltersNoEntry query → length query.from ≤ most_entries
        → planned query tables accuracy budget ≡ Ok plan → LevelsAreNear query tables accuracy plan }
{}

/// Suppose that no conjunct names exactly one entry. At accuracy 1, the bound of a level of n entries is at most 2^n times the uncompressed bound.
pub fn default_levels_are_near()
    ensures { (query : Query) (tables : Tables) (budget : ℕ) (plan : Plan) (k : ℕ)
        → FiltersNoEntry query → length query.from ≤ most_entries
        → planned query tables default_accuracy budget ≡ Ok plan → k < length query.from
        → slice_index plan.levels k ≤ 2 ^ (k + 1) * uncompressed_bound query tables (take (k + 1) plan.order) }
{}

/// Suppose that no conjunct names exactly one entry. The inner nodes of the best tree from statistics of whole columns have bounds near the
/// uncompressed bounds.
pub fn nodes_are_near()
    ensures { (query : Query) (tables : Tables) (accuracy budget : ℕ) (plan : BushyPlan)
        → FiltersNoEntry query → 1 ≤ length query.from → length query.from ≤ most_entries
        → tree_answer (set_bounds_of query tables accuracy) (scan_bounds_of query tables accuracy) budget ≡ Ok plan
        → NodesAreNear query tables accuracy plan }
{}
