//! Small queries with small files, and plans from the files, as theorems by computation.
ghost use Rattle.std.specs.Prelude.{◌≡◌, ◌∷◌, [], None, Some, Err, Ok};
ghost use Rattle.order_search.specs.declared.refusal.PlanError.TheVariants as error;
ghost use Rattle.plan_answers.specs.PlanAnswer.{plan_answer};
ghost use Rattle.plans.specs.Examples.{plan_of};
ghost use Rattle.query_bounds.specs.Examples.{two_table_query};
ghost use Rattle.stats_file_of_query.specs.Examples.{one_value};
ghost use Rattle.stats_file_bounds.specs.Examples.{infrequent_99, pair_with_itself, file_of_one, file_of_two, section};
ghost use Rattle.stats_file_bounds.specs.Bounds.{scan_bounds_of_file, set_bounds_of_file};
ghost use Rattle.stats_file_bounds.specs.Found.{first_missing};

/// R(X) has the values 1, 1, 1, 2, 2, 3, and S(X) has the values 1, 1, 4, 5, 6. Their bounds come from their lists. In another file 99 isn't a
/// frequent value; the file still bounds the rows that have it. The last clauses are about the first entry for which a file lacks a section or a
/// pair.
pub fn small_files()
    ensures scans { scan_bounds_of_file two_table_query (file_of_two (section 0 6 (pair_with_itself (3 ∷ 3 ∷ []))) (section 1 5 (pair_with_itself (2 ∷ 2 ∷ 1 ∷ []))))
        ≡ 6 ∷ 5 ∷ [] }
    ensures sets { set_bounds_of_file two_table_query (file_of_two (section 0 6 (pair_with_itself (3 ∷ 3 ∷ []))) (section 1 5 (pair_with_itself (2 ∷ 2 ∷ 1 ∷ []))))
        ≡ 1 ∷ 6 ∷ 5 ∷ 12 ∷ [] }
    ensures absent { scan_bounds_of_file one_value (file_of_one (section 0 4 infrequent_99)) ≡ 1 ∷ [] }
    ensures all { first_missing one_value (file_of_one (section 0 4 infrequent_99)) ≡ None }
    ensures second { first_missing two_table_query (file_of_one (section 0 6 (pair_with_itself (3 ∷ 3 ∷ [])))) ≡ Some 1 }
    ensures first { first_missing two_table_query (file_of_one (section 2 0 (pair_with_itself []))) ≡ Some 0 }
{}

/// A plan for the same R(X) and S(X), from the file of both tables. The best order costs 12.
pub fn small_plans()
    ensures plan { plan_answer (set_bounds_of_file two_table_query (file_of_two (section 0 6 (pair_with_itself (3 ∷ 3 ∷ []))) (section 1 5 (pair_with_itself (2 ∷ 2 ∷ 1 ∷ [])))))
        (scan_bounds_of_file two_table_query (file_of_two (section 0 6 (pair_with_itself (3 ∷ 3 ∷ []))) (section 1 5 (pair_with_itself (2 ∷ 2 ∷ 1 ∷ []))))) 12
        ≡ Ok (plan_of (1 ∷ 0 ∷ []) (6 ∷ 5 ∷ []) (5 ∷ 12 ∷ [])) }
    ensures over { plan_answer (set_bounds_of_file two_table_query (file_of_two (section 0 6 (pair_with_itself (3 ∷ 3 ∷ []))) (section 1 5 (pair_with_itself (2 ∷ 2 ∷ 1 ∷ [])))))
        (scan_bounds_of_file two_table_query (file_of_two (section 0 6 (pair_with_itself (3 ∷ 3 ∷ []))) (section 1 5 (pair_with_itself (2 ∷ 2 ∷ 1 ∷ []))))) 11
        ≡ Err (error.Budget 12) }
{}
