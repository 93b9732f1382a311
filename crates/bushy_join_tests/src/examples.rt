//! Small join trees: the rows of their nodes over whole tables, and that each plan is a plan of its query over whole scans.
ghost use Rattle.std.specs.Prelude.{◌≡◌, ◌∷◌, []};
ghost use Rattle.sql_meaning.specs.Examples.{triangle, triangle_tables};
ghost use Rattle.bushy_join_tests.specs.SmallQueries.{r_joins_s, six_and_five, three_rows_two_entries};
ghost use Rattle.sql_meaning.specs.Tables.{tables_of};
ghost use Rattle.join_steps.specs.Lists.{scans_of};
ghost use Rattle.bushy_join.specs.Trees.{rows_over_tables, IsTreePlanOf};
ghost use Rattle.bushy_join_tests.specs.Examples.{one_entry_plan, query_with_false_condition, pair_plan, three_rows, triangle_plan, two_entries_plan};

/// Two tables with one inner node, which has six of the 30 choices.
pub fn two_tables()
    ensures plan { IsTreePlanOf r_joins_s (tables_of six_and_five) (scans_of r_joins_s (tables_of six_and_five)) pair_plan }
    ensures inner { rows_over_tables r_joins_s (tables_of six_and_five) pair_plan 2
        ≡ (0 ∷ 0 ∷ []) ∷ (0 ∷ 1 ∷ []) ∷ (1 ∷ 0 ∷ []) ∷ (1 ∷ 1 ∷ []) ∷ (2 ∷ 0 ∷ []) ∷ (2 ∷ 1 ∷ []) ∷ [] }
{}

/// The triangle: five rows at the inner node below the root and four at the root. Each row has its row numbers in the order of the node's leaves.
pub fn triangles()
    ensures plan { IsTreePlanOf triangle (tables_of triangle_tables) (scans_of triangle (tables_of triangle_tables)) triangle_plan }
    ensures inner { rows_over_tables triangle (tables_of triangle_tables) triangle_plan 3
        ≡ (0 ∷ 0 ∷ []) ∷ (0 ∷ 2 ∷ []) ∷ (1 ∷ 1 ∷ []) ∷ (2 ∷ 0 ∷ []) ∷ (2 ∷ 2 ∷ []) ∷ [] }
    ensures root { rows_over_tables triangle (tables_of triangle_tables) triangle_plan 4
        ≡ (0 ∷ 0 ∷ 0 ∷ []) ∷ (0 ∷ 1 ∷ 1 ∷ []) ∷ (1 ∷ 0 ∷ 2 ∷ []) ∷ (2 ∷ 2 ∷ 0 ∷ []) ∷ [] }
{}

/// A query with the constant condition 1 = 2, which fails. A leaf that is the root is empty, and so is an inner node. A leaf below an inner node
/// keeps its rows.
pub fn constants()
    ensures plan_alone { IsTreePlanOf (query_with_false_condition (0 ∷ [])) (tables_of three_rows) (scans_of (query_with_false_condition (0 ∷ [])) (tables_of three_rows)) one_entry_plan }
    ensures alone { rows_over_tables (query_with_false_condition (0 ∷ [])) (tables_of three_rows) one_entry_plan 0 ≡ [] }
    ensures plan_twice { IsTreePlanOf (query_with_false_condition (0 ∷ 0 ∷ [])) (tables_of three_rows_two_entries) (scans_of (query_with_false_condition (0 ∷ 0 ∷ [])) (tables_of three_rows_two_entries)) two_entries_plan }
    ensures inner { rows_over_tables (query_with_false_condition (0 ∷ 0 ∷ [])) (tables_of three_rows_two_entries) two_entries_plan 2 ≡ [] }
    ensures leaf { rows_over_tables (query_with_false_condition (0 ∷ 0 ∷ [])) (tables_of three_rows_two_entries) two_entries_plan 0 ≡ (0 ∷ []) ∷ (1 ∷ []) ∷ (2 ∷ []) ∷ [] }
{}
