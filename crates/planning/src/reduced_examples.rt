//! Reduced scans of small tables and their plans, at accuracy 1: theorems by computation.
ghost use Rattle.std.specs.Prelude.{◌≡◌, ◌∷◌, [], Ok, length};
ghost use Rattle.plans.specs.Examples.{plan_of};
ghost use Rattle.query_bounds.specs.Examples.{two_table_query};
ghost use Rattle.sql_meaning.specs.Answers.{answer};
ghost use Rattle.sql_meaning.specs.Examples.{triangle};
ghost use Rattle.level_bounds.specs.Examples.{three_tables};
ghost use Rattle.planning.specs.Examples.{small_tables};
ghost use Rattle.reduced_scans.specs.Rounds.{reduced_of};
ghost use Rattle.planning.specs.ReducedExamples.{chain_query, region_query, chain_tables, crossed_tables, empty_first_tables, never_true_query, region_tables, unjoined_entry_query};
ghost use Rattle.planning.specs.Plans.{planned_reduced};

/// R(X) of 1, 1, 1, 2, 2, 3 and S(X) of 1, 1, 4, 5, 6, joined by X. Three rows of R and two of S are kept, and the bound is the answer's number of
/// rows.
pub fn two_tables()
    ensures reduced { reduced_of two_table_query small_tables ≡ (0 ∷ 1 ∷ 2 ∷ []) ∷ (0 ∷ 1 ∷ []) ∷ [] }
    ensures plan { planned_reduced two_table_query small_tables 1 6 ≡ Ok (plan_of (1 ∷ 0 ∷ []) (3 ∷ 2 ∷ []) (2 ∷ 6 ∷ [])) }
    ensures answer { length (answer two_table_query small_tables) ≡ 6 }
{}

/// O(N, CID) and C(ID, REG), joined by O.CID = C.ID where C.REG = 3: a filter of C reduces O.
pub fn a_filtered_partner()
    ensures reduced { reduced_of region_query region_tables ≡ (0 ∷ []) ∷ (0 ∷ []) ∷ [] }
    ensures plan { planned_reduced region_query region_tables 1 1 ≡ Ok (plan_of (0 ∷ 1 ∷ []) (1 ∷ 1 ∷ []) (1 ∷ 1 ∷ [])) }
{}

/// A(X), B(X, Y) and D(Y), joined in a chain. The only row of D reduces B, and then B reduces A.
pub fn along_a_chain()
    ensures reduced { reduced_of chain_query chain_tables ≡ (0 ∷ []) ∷ (0 ∷ []) ∷ (0 ∷ []) ∷ [] }
    ensures plan { planned_reduced chain_query chain_tables 1 1
        ≡ Ok (plan_of (0 ∷ 1 ∷ 2 ∷ []) (1 ∷ 1 ∷ 1 ∷ []) (1 ∷ 1 ∷ 1 ∷ [])) }
{}

/// A triangle of three tables with three rows each. Each row has a match in both other tables, so nothing is reduced.
pub fn a_triangle()
    ensures reduced { reduced_of triangle three_tables ≡ (0 ∷ 1 ∷ 2 ∷ []) ∷ (0 ∷ 1 ∷ 2 ∷ []) ∷ (0 ∷ 1 ∷ 2 ∷ []) ∷ [] }
    ensures plan { planned_reduced triangle three_tables 1 9 ≡ Ok (plan_of (0 ∷ 1 ∷ 2 ∷ []) (3 ∷ 3 ∷ 3 ∷ []) (3 ∷ 5 ∷ 9 ∷ [])) }
{}

/// A triangle in which each row has a match in both other tables, but no three rows, one from each table, all match each other. If equalities close a
/// cycle, a reduced scan may have a row that takes part in no choice.
pub fn a_crossed_triangle()
    ensures reduced { reduced_of triangle crossed_tables ≡ (0 ∷ 1 ∷ []) ∷ (0 ∷ 1 ∷ []) ∷ (0 ∷ 1 ∷ []) ∷ [] }
    ensures answer { answer triangle crossed_tables ≡ [] }
{}

/// Three entries, of which two are joined. If one of these has an empty table, the other keeps no row, and the third entry keeps every row. The bound
/// of each level is 0, though one scan has two rows.
pub fn an_empty_table()
    ensures reduced { reduced_of unjoined_entry_query empty_first_tables ≡ [] ∷ [] ∷ (0 ∷ 1 ∷ []) ∷ [] }
    ensures plan { planned_reduced unjoined_entry_query empty_first_tables 1 1
        ≡ Ok (plan_of (0 ∷ 1 ∷ 2 ∷ []) (0 ∷ 0 ∷ 2 ∷ []) (0 ∷ 0 ∷ 0 ∷ [])) }
{}

/// A constant condition that is false, 1 = 2: the reduced scans keep their rows, and the answer has no rows.
pub fn a_condition_without_entries()
    ensures reduced { reduced_of never_true_query small_tables ≡ (0 ∷ 1 ∷ 2 ∷ []) ∷ (0 ∷ 1 ∷ []) ∷ [] }
    ensures answer { answer never_true_query small_tables ≡ [] }
{}
