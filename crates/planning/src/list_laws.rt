//! Laws of bounds and plans over lists of rows. Each function does nothing; its contract is the law.
ghost use Rattle.std.specs.Prelude.{◌≡◌, ◌≢◌, ◌⊎◌, ◌^◌, ◌<◌, ◌≤◌, ℕ, IsPermutation, List, Ok, Err, length, map, slice_index};
ghost use Rattle.std.specs.List.{Contains};
ghost use Rattle.limits.specs.Profile.{most_budget, most_entries, top_bound};
ghost use Rattle.entry_sets.specs.Sets.{entries_of_set};
ghost use Rattle.plans.specs.declared.left_deep.Plan.{Plan};
ghost use Rattle.order_search.specs.Orders.{IsBest};
ghost use Rattle.order_search.specs.declared.refusal.PlanError.TheVariants as error;
ghost use Rattle.query_types.specs.declared.types.Query.{Query};
ghost use Rattle.query_types.specs.Named.{NamesItsEntries};
ghost use Rattle.berge_tree.specs.Equalities.{ClosesNoCycle};
ghost use Rattle.join_graph.specs.Conjuncts.{equalities_of};
ghost use Rattle.sql_meaning.specs.Answers.{answer, conjuncts_of, entries_of, selected};
ghost use Rattle.sql_meaning.specs.Levels.{level, level_over, row_in};
ghost use Rattle.sql_meaning.specs.Tables.{Tables, row_counts};
ghost use Rattle.level_bounds.specs.Orders.{IsOrderOfSet};
ghost use Rattle.join_steps.specs.Lists.{list_at, scans_of, listed_row_count, AreOfScans, list_levels};
ghost use Rattle.reduced_scans.specs.Rounds.{reduced_of};
ghost use Rattle.reduced_scans.specs.Scans.{AreConsistentScans};
ghost use Rattle.planning.specs.ListedBounds.{set_bounds_over};
ghost use Rattle.join_steps.specs.Plans.{IsPlanOf};
ghost use Rattle.planning.specs.Plans.{planned_over, planned_reduced};
ghost use Rattle.planning.specs.TakingPart.{JoinsByEqualitiesAlone, TakesPart};

/// No level over lists of scanned rows has more rows than the bound of its set, in whatever order its entries are joined. If a set's
/// bound is the top bound, the law says nothing of its levels.
pub fn bounds_over_lists_are_never_under()
    ensures { (query : Query) (tables : Tables) (lists : List (List ℕ)) (accuracy subset : ℕ) (order : List ℕ)
        → AreOfScans query tables lists → subset < 2 ^ length query.from → IsOrderOfSet (entries_of_set subset) order
        → (length (level_over (conjuncts_of query tables) (list_at lists) order)
        ≤ slice_index (set_bounds_over query tables lists accuracy) subset)
        ⊎ (slice_index (set_bounds_over query tables lists accuracy) subset ≡ top_bound) }
{}

/// The order of a plan over lists is the best order, and a scan's bound is exactly the number of listed rows. If the lists have scanned rows, no
/// bound in the plan is too low.
pub fn plans_over_lists_are_never_under()
    ensures plan { (query : Query) (tables : Tables) (lists : List (List ℕ)) (accuracy budget : ℕ) (plan : Plan)
        → AreOfScans query tables lists → length query.from ≤ most_entries → budget ≤ most_budget
        → planned_over query tables lists accuracy budget ≡ Ok plan → IsPlanOf query tables lists plan }
    ensures best { (query : Query) (tables : Tables) (lists : List (List ℕ)) (accuracy budget : ℕ) (plan : Plan)
        → planned_over query tables lists accuracy budget ≡ Ok plan
        → IsBest (set_bounds_over query tables lists accuracy) (length query.from) plan.order }
    ensures scans { (query : Query) (tables : Tables) (lists : List (List ℕ)) (accuracy budget : ℕ) (plan : Plan) (entry : ℕ)
        → planned_over query tables lists accuracy budget ≡ Ok plan → entry < length query.from
        → slice_index plan.scans entry ≡ listed_row_count lists entry }
    ensures levels { (query : Query) (tables : Tables) (lists : List (List ℕ)) (accuracy budget : ℕ) (plan : Plan) (k : ℕ)
        → planned_over query tables lists accuracy budget ≡ Ok plan → slice_index plan.levels k ≤ budget }
    ensures no_memory { (query : Query) (tables : Tables) (lists : List (List ℕ)) (accuracy budget : ℕ)
        → planned_over query tables lists accuracy budget ≢ Err error.NoMemory }
{}

/// The reduced scans are lists of scanned rows, so no bound of their plan is too low. The last level over the reduced scans gives exactly the rows of
/// the answer, with the same multiplicities.
pub fn reduced_plans_lose_no_row()
    ensures lists { (query : Query) (tables : Tables) → AreOfScans query tables (reduced_of query tables) }
    ensures plan { (query : Query) (tables : Tables) (accuracy budget : ℕ) (plan : Plan)
        → length query.from ≤ most_entries → budget ≤ most_budget
        → planned_reduced query tables accuracy budget ≡ Ok plan → IsPlanOf query tables (reduced_of query tables) plan }
    ensures last { (query : Query) (tables : Tables) (accuracy budget : ℕ) (plan : Plan) → NamesItsEntries query
        → planned_reduced query tables accuracy budget ≡ Ok plan
        → IsPermutation (map (λ choice. selected query tables (row_in plan.order choice))
        (list_levels query tables (reduced_of query tables) plan.order (length query.from)))
        (answer query tables) }
    ensures no_memory { (query : Query) (tables : Tables) (accuracy budget : ℕ)
        → planned_reduced query tables accuracy budget ≢ Err error.NoMemory }
{}

/// The scans themselves are lists of scanned rows, and the levels over them are the levels of the query.
pub fn levels_over_whole_scans()
    ensures lists { (query : Query) (tables : Tables) → AreOfScans query tables (scans_of query tables) }
    ensures levels { (query : Query) (tables : Tables) (order : List ℕ) (k : ℕ) → IsOrderOfSet (entries_of query) order
        → list_levels query tables (scans_of query tables) order k
        ≡ level (conjuncts_of query tables) (row_counts tables) order k }
{}

/// Suppose that the equalities close no cycle of entries, and that every other conjunct names at most one entry. Then each reduced row takes part in
/// a choice of reduced rows. The choice has one row of each entry that equalities connect with the row's entry. Every conjunct that names one of
/// these entries holds for it. The same is true of any lists of scanned rows in which each row has a partner across each equality.
pub fn reduced_rows_take_part()
    ensures consistent { (query : Query) (tables : Tables) (lists : List (List ℕ)) (entry row : ℕ) → AreConsistentScans query tables lists
        → ClosesNoCycle (equalities_of query) → JoinsByEqualitiesAlone query → Contains (list_at lists entry) row
        → TakesPart query tables lists entry row }
    ensures reduced { (query : Query) (tables : Tables) (entry row : ℕ) → ClosesNoCycle (equalities_of query) → JoinsByEqualitiesAlone query
        → Contains (list_at (reduced_of query tables) entry) row → TakesPart query tables (reduced_of query tables) entry row }
{}
