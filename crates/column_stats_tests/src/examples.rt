//! What the definitions of lists give for two columns.
ghost use Rattle.std.specs.Prelude.{◌≡◌, ◌++◌, [], ◌∷◌, Some, map, replicate};
ghost use Rattle.std.specs.List.{flat_map, range_with_len, zip};
ghost use Rattle.cond_stats.specs.Lists.{list_of_value, whole};

/// 32 values have four rows each, all with one joined key. The value 100 has the keys 5, 6 and 7, and the value 200 has the key 8 twice. The list
/// of each of the 32 values is (4). The last two clauses give the list of all rows of the column 1, 1, 1, 2, 2, 3, at accuracy 1 and at accuracy 3.
pub fn frequent_lists()
    ensures frequent { let column = flat_map (λ v. replicate 4 v) (range_with_len 0 32) ++ (100 ∷ 100 ∷ 100 ∷ 200 ∷ 200 ∷ []) in
        let joined = replicate 128 1 ++ (5 ∷ 6 ∷ 7 ∷ 8 ∷ 8 ∷ []) in
        map (λ v. list_of_value 1 (zip column joined) (Some v)) (range_with_len 0 32) ≡ replicate 32 (4 ∷ []) }
    ensures all_rows { let column = 1 ∷ 1 ∷ 1 ∷ 2 ∷ 2 ∷ 3 ∷ [] in whole 1 (zip column column) ≡ 3 ∷ 3 ∷ [] }
    ensures all_rows_nearer { let column = 1 ∷ 1 ∷ 1 ∷ 2 ∷ 2 ∷ 3 ∷ [] in whole 3 (zip column column) ≡ 3 ∷ 2 ∷ 1 ∷ [] }
{}
