//! Laws of the bounds and plans of a query over its tables, and of plans from any bounds of entries. Each function does nothing; its contract is the
//! law.
//!
//! The tables are lists of rows of values, without cells and a pool of texts.
ghost use Rattle.std.specs.Prelude.{◌≡◌, ◌≢◌, ◌⊎◌, ◌+◌, ◌*◌, ◌^◌, ◌<◌, ◌≤◌, ℕ, List, [], Ok, Err, length, slice_index, take};
ghost use Rattle.limits.specs.Profile.{most_budget, most_entries, top_bound};
ghost use Rattle.entry_sets.specs.Sets.{entries_of_set};
ghost use Rattle.berge_tree.specs.declared.edges.Edge.{Edge};
ghost use Rattle.plans.specs.declared.left_deep.Plan.{Plan};
ghost use Rattle.plans.specs.LeftDeep.{IsPlan};
ghost use Rattle.order_search.specs.Orders.{IsBest};
ghost use Rattle.order_search.specs.declared.refusal.PlanError.TheVariants as error;
ghost use Rattle.plan_answers.specs.PlanAnswer.{plan_answer};
ghost use Rattle.query_types.specs.declared.types.Query.{Query};
ghost use Rattle.join_graph.specs.Conjuncts.{equalities_of};
ghost use Rattle.tree_bounds.specs.SetBounds.{bound_of_set};
ghost use Rattle.tree_bounds.specs.TreeBounds.{EntryBounds};
ghost use Rattle.set_bounds.specs.AllSets.{bounds_in_sets, in_every_set};
ghost use Rattle.sql_meaning.specs.Answers.{conjuncts_of};
ghost use Rattle.sql_meaning.specs.Levels.{level};
ghost use Rattle.sql_meaning.specs.Tables.{Tables, row_counts};
ghost use Rattle.join_steps.specs.Lists.{scans_of, AreOfScans};
ghost use Rattle.join_steps.specs.Plans.{IsPlanOf};
ghost use Rattle.level_bounds.specs.Keys.{AreKeys, Keys};
ghost use Rattle.level_bounds.specs.Orders.{IsOrderOfSet};
ghost use Rattle.level_bounds.specs.Scans.{level_over_entries, query_scan};
ghost use Rattle.filtered_lists.specs.Filters.{own_conjuncts};
ghost use Rattle.query_bounds.specs.Bounds.{entry_bounds, scan_bounds};
ghost use Rattle.query_bounds.specs.Statistics.{StandFor, Statistics};
ghost use Rattle.gathered_stats.specs.Statistics.{statistics_of};
ghost use Rattle.planning.specs.Bounds.{scan_bounds_of, set_bounds_of, whole_columns};
ghost use Rattle.planning.specs.Plans.{planned, planned_from};
ghost use Rattle.planning.specs.Standing.{BoundLevels, BoundLists, EntriesStand, JoinedHaveLists, StandForLists};

/// The statistics of any tables stand for these tables: no row count is too low, and the lists dominate the keys. Rows that an equality joins have
/// the same key.
pub fn statistics_stand()
    ensures { (query : Query) (tables : Tables) (accuracy : ℕ)
        → (key : Keys) × StandFor query (statistics_of tables accuracy) tables key × AreKeys tables key (equalities_of query) }
{}

/// No scan has more rows than its bound. No level over the entries of a set has more rows than the bound of the set, in whatever order the
/// entries are joined. If a set's bound is the top bound, the law says nothing of its levels.
pub fn bounds_are_never_under()
    ensures scans { (query : Query) (tables : Tables) (accuracy entry : ℕ) → entry < length query.from
        → length (query_scan query tables entry) ≤ slice_index (scan_bounds_of query tables accuracy) entry }
    ensures sets { (query : Query) (tables : Tables) (accuracy subset : ℕ) (order : List ℕ)
        → subset < 2 ^ length query.from → IsOrderOfSet (entries_of_set subset) order
        → (length (level_over_entries query tables order) ≤ slice_index (set_bounds_of query tables accuracy) subset)
        ⊎ (slice_index (set_bounds_of query tables accuracy) subset ≡ top_bound) }
{}

/// If no conjunct names just one entry, bounds are near the uncompressed bounds, which are made from the degree sequences of whole columns. At
/// accuracy K, the bound of a set of n entries, times K^n, is at most its uncompressed bound times (K + 1)^n.
pub fn bounds_are_near()
    ensures { (query : Query) (tables : Tables) (accuracy subset : ℕ)
        → ((entry : ℕ) → own_conjuncts entry query.conjuncts ≡ []) → subset < 2 ^ length query.from
        → accuracy ^ length (entries_of_set subset) * slice_index (set_bounds_of query tables accuracy) subset
        ≤ (accuracy + 1) ^ length (entries_of_set subset) * bound_of_set (whole_columns tables) (equalities_of query) subset }
{}

/// The result `planned` of a query over its tables is never `NoMemory`.
pub fn plans_are_never_out_of_memory()
    ensures { (query : Query) (tables : Tables) (accuracy budget : ℕ) → planned query tables accuracy budget ≢ Err error.NoMemory }
{}

/// The order of a plan is the best order, and no bound in the plan is too low. A scan's bound is at most the number of rows of its table. A level's
/// bound is at most the budget.
pub fn plans_are_never_under()
    ensures plan { (query : Query) (tables : Tables) (accuracy budget : ℕ) (plan : Plan)
        → planned query tables accuracy budget ≡ Ok plan → IsPlan (length query.from) plan }
    ensures best { (query : Query) (tables : Tables) (accuracy budget : ℕ) (plan : Plan)
        → planned query tables accuracy budget ≡ Ok plan
        → IsBest (set_bounds_of query tables accuracy) (length query.from) plan.order }
    ensures scans { (query : Query) (tables : Tables) (accuracy budget : ℕ) (plan : Plan) (entry : ℕ)
        → planned query tables accuracy budget ≡ Ok plan → entry < length query.from
        → length (query_scan query tables entry) ≤ slice_index plan.scans entry }
    // the level of the first k + 1 entries of the order
    ensures levels { (query : Query) (tables : Tables) (accuracy budget : ℕ) (plan : Plan) (k : ℕ)
        → length query.from ≤ most_entries → budget ≤ most_budget
        → planned query tables accuracy budget ≡ Ok plan → k < length query.from
        → length (level_over_entries query tables (take (k + 1) plan.order)) ≤ slice_index plan.levels k }
    // the same for `level`, which counts the entries: level k + 1 has the first k + 1 entries of the order
    ensures levels_of_order { (query : Query) (tables : Tables) (accuracy budget : ℕ) (plan : Plan) (k : ℕ)
        → length query.from ≤ most_entries → budget ≤ most_budget
        → planned query tables accuracy budget ≡ Ok plan → k < length query.from
        → length (level (conjuncts_of query tables) (row_counts tables) plan.order (k + 1)) ≤ slice_index plan.levels k }
    ensures scan_bounds_within_tables { (query : Query) (tables : Tables) (accuracy budget : ℕ) (plan : Plan) (entry : ℕ)
        → planned query tables accuracy budget ≡ Ok plan → entry < length query.from
        → slice_index plan.scans entry ≤ row_counts tables entry }
    ensures level_bounds_within_budget { (query : Query) (tables : Tables) (accuracy budget : ℕ) (plan : Plan) (k : ℕ)
        → planned query tables accuracy budget ≡ Ok plan → k < length query.from
        → slice_index plan.levels k ≤ budget }
{}

/// This law is about all plans, wherever their bounds come from. It has two premises. First, no level over lists of scanned rows has more rows than
/// the bound of its set. Second, each scan's bound is at least the number of its listed rows, and at most the number of rows of its table. Then the
/// plan is a plan over these lists (`IsPlanOf`), so no bound in it is too low. The first premise holds if the bounds of the entries in each set stand
/// for the lists (`StandForLists`). Statistics of the tables stand for the scans, and degree sequences of listed rows stand for these rows.
pub fn plans_from_lists_are_never_under()
    ensures sets { (query : Query) (tables : Tables) (lists : List (List ℕ)) (key : Keys) (bounds : ℕ → EntryBounds)
        → StandForLists query tables lists key bounds
        → BoundLevels query tables lists (bounds_in_sets bounds (equalities_of query) (length query.from)) }
    // for bounds of entries that are the same in every set
    ensures everywhere { (query : Query) (tables : Tables) (lists : List (List ℕ)) (key : Keys) (bounds : EntryBounds)
        → AreOfScans query tables lists → EntriesStand query tables lists key bounds
        → StandForLists query tables lists key (in_every_set bounds) }
    // for statistics: if they stand for the tables, they stand for the scans
    ensures statistics { (query : Query) (known : Statistics) (tables : Tables) (key : Keys) → StandFor query known tables key
        → JoinedHaveLists query (entry_bounds query known) → AreKeys tables key (equalities_of query)
        → EntriesStand query tables (scans_of query tables) key (entry_bounds query known) }
    ensures of_scans { (query : Query) (known : Statistics) (tables : Tables) (key : Keys) (entry : ℕ) → StandFor query known tables key
        → entry < length query.from → length (query_scan query tables entry) ≤ slice_index (scan_bounds query known) entry }
    ensures over_bounds { (query : Query) (tables : Tables) (lists : List (List ℕ)) (sets scans : List ℕ) (budget : ℕ) (plan : Plan)
        → BoundLevels query tables lists sets → BoundLists query tables lists scans
        → length query.from ≤ most_entries → budget ≤ most_budget
        → plan_answer sets scans budget ≡ Ok plan → IsPlanOf query tables lists plan }
    ensures plan { (query : Query) (tables : Tables) (lists : List (List ℕ)) (key : Keys) (bounds : ℕ → EntryBounds) (scans : List ℕ)
        (budget : ℕ) (plan : Plan)
        → StandForLists query tables lists key bounds → BoundLists query tables lists scans
        → length query.from ≤ most_entries → budget ≤ most_budget
        → planned_from bounds scans (equalities_of query) (length query.from) budget ≡ Ok plan
        → IsPlanOf query tables lists plan }
    ensures no_memory { (bounds : ℕ → EntryBounds) (scans : List ℕ) (es : List Edge) (count budget : ℕ)
        → planned_from bounds scans es count budget ≢ Err error.NoMemory }
    ensures over_scans { (query : Query) (tables : Tables) (accuracy budget : ℕ) (plan : Plan)
        → length query.from ≤ most_entries → budget ≤ most_budget
        → planned query tables accuracy budget ≡ Ok plan → IsPlanOf query tables (scans_of query tables) plan }
{}
