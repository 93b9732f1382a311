//! Laws of the counted bounds of all sets. The functions do nothing; their contracts are the laws.
ghost use Rattle.std.specs.Prelude.{◌≡◌, ◌+◌, ◌^◌, ◌<◌, ◌≤◌, ℕ, true, List, [], Ok, length, slice_index, take};
ghost use Rattle.limits.specs.Profile.{most_budget, most_entries};
ghost use Rattle.degree_sequences.specs.Saturation.{saturated};
ghost use Rattle.entry_sets.specs.Sets.{entries_of_set, set_of};
ghost use Rattle.plans.specs.declared.left_deep.Plan.{Plan};
ghost use Rattle.plan_answers.specs.PlanAnswer.{plan_answer};
ghost use Rattle.query_types.specs.declared.types.Query.{Query};
ghost use Rattle.sql_meaning.specs.Answers.{conjuncts_of};
ghost use Rattle.sql_meaning.specs.Levels.{all_hold, level_over, row_in};
ghost use Rattle.sql_meaning.specs.Tables.{Tables};
ghost use Rattle.level_bounds.specs.Orders.{IsOrderOfSet};
ghost use Rattle.join_steps.specs.Lists.{AreOfScans, list_at, list_levels, list_sizes};
ghost use Rattle.join_steps.specs.Plans.{IsPlanOf};
ghost use Rattle.counted_bounds.specs.Bounds.{AllPartsAreCounted, CountsMade, counted_bounds_of_sets};
ghost use Rattle.reduced_scans.specs.Rounds.{reduced_of};
ghost use Rattle.planning.specs.ListedBounds.{set_bounds_over};
ghost use Rattle.planning.specs.Standing.{BoundLevels};

/// No level over the lists has more rows than its set's bound, whichever conjuncts are used for counting. Only the top bound, 2^128 - 1, promises
/// nothing. No bound of a plan over lists of scanned rows is too low.
pub fn counts_are_never_under()
    ensures sets { (counted : CountsMade) (query : Query) (tables : Tables) (lists : List (List ℕ))
        → BoundLevels query tables lists (counted_bounds_of_sets counted query tables lists) }
    ensures plan { (counted : CountsMade) (query : Query) (tables : Tables) (lists : List (List ℕ)) (budget : ℕ) (plan : Plan)
        → AreOfScans query tables lists → length query.from ≤ most_entries → budget ≤ most_budget
        → plan_answer (counted_bounds_of_sets counted query tables lists) (list_sizes query lists) budget ≡ Ok plan
        → IsPlanOf query tables lists plan }
{}

/// Suppose that each part of a set is counted under all of its conjuncts, and that each constant conjunct, such as 1 = 1, holds. Then the bound of
/// the set is the number of rows of the level over its entries, in whatever order they are joined, or 2^128 - 1 if this number is larger. If the set
/// of a plan's level is counted in this way, the level has exactly as many rows as the plan says.
pub fn counts_are_exact()
    ensures sets { (counted : CountsMade) (query : Query) (tables : Tables) (lists : List (List ℕ)) (subset : ℕ) (order : List ℕ)
        → subset < 2 ^ length query.from → IsOrderOfSet (entries_of_set subset) order → AllPartsAreCounted counted query tables subset
        → all_hold (conjuncts_of query tables) [] (row_in [] []) ≡ true
        → slice_index (counted_bounds_of_sets counted query tables lists) subset
        ≡ saturated (length (level_over (conjuncts_of query tables) (list_at lists) order)) }
    ensures levels { (counted : CountsMade) (query : Query) (tables : Tables) (lists : List (List ℕ)) (budget k : ℕ) (plan : Plan)
        → length query.from ≤ most_entries → budget ≤ most_budget
        → plan_answer (counted_bounds_of_sets counted query tables lists) (list_sizes query lists) budget ≡ Ok plan → k < length query.from
        → AllPartsAreCounted counted query tables (set_of (take (k + 1) plan.order))
        → all_hold (conjuncts_of query tables) [] (row_in [] []) ≡ true
        → slice_index plan.levels k ≡ length (list_levels query tables lists plan.order (k + 1)) }
{}

/// Whichever conjuncts are used for counting, no bound is above the bound from degree sequences of the same lists, at any accuracy. The second clause
/// is about the reduced scans.
pub fn counts_are_not_above_degree_sequences()
    ensures over_lists { (counted : CountsMade) (query : Query) (tables : Tables) (lists : List (List ℕ)) (accuracy subset : ℕ)
        → AreOfScans query tables lists → subset < 2 ^ length query.from
        → slice_index (counted_bounds_of_sets counted query tables lists) subset
        ≤ slice_index (set_bounds_over query tables lists accuracy) subset }
    ensures over_reduced_scans { (counted : CountsMade) (query : Query) (tables : Tables) (accuracy subset : ℕ) → subset < 2 ^ length query.from
        → slice_index (counted_bounds_of_sets counted query tables (reduced_of query tables)) subset
        ≤ slice_index (set_bounds_over query tables (reduced_of query tables) accuracy) subset }
{}
