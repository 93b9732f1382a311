//! What the definitions give for small columns.
ghost use Rattle.std.specs.Prelude.{◌≡◌, ◌++◌, nat_le, true, false, [], ◌∷◌, Some, None, replicate};
ghost use Rattle.std.specs.List.{zip, range_with_len, flat_map};
ghost use Rattle.cond_stats.specs.Frequency.{remaining};
ghost use Rattle.cond_stats.specs.Leaves.{cuts, leaf_of, node_size};
ghost use Rattle.cond_stats.specs.Lists.{rest, is_frequent, list_of_value, list_of_range};

/// The list of an absent value in a column of 40 different values, in a column of three, and without rows. Of 33 values in one row each, the
/// first 32 are frequent.
pub fn values()
    ensures absent_among_forty { let column = range_with_len 1 40 in list_of_value 1 (zip column column) None ≡ 1 ∷ [] }
    ensures absent_among_three { let column = 1 ∷ 2 ∷ 3 ∷ [] in list_of_value 1 (zip column column) (Some 99) ≡ [] }
    ensures no_rows { list_of_value 1 [] (Some 1) ≡ [] }
    ensures thirty_second { let column = range_with_len 1 33 in is_frequent (zip column column) 32 ≡ true }
    ensures thirty_third { let column = range_with_len 1 33 in is_frequent (zip column column) 33 ≡ false }
{}

/// 32 values have four rows each, all with one joined key. The value 100 has the keys 5, 6 and 7, and the value 200 has the key 8 twice. So 100 and
/// 200 aren't frequent. Their degree lists are (1, 1, 1) and (2), with the rank-wise maximum (2, 1, 1). Its sum is capped at 3, the
/// number of rows of the value 100. So the rest list is (2, 1).
pub fn rest_list()
    ensures remain { let column = flat_map (λ v. replicate 4 v) (range_with_len 0 32)
        ++ (100 ∷ 100 ∷ 100 ∷ 200 ∷ 200 ∷ []) in remaining column ≡ 100 ∷ 200 ∷ [] }
    ensures rest { let column = flat_map (λ v. replicate 4 v) (range_with_len 0 32) ++ (100 ∷ 100 ∷ 100 ∷ 200 ∷ 200 ∷ []) in
        let joined = replicate 128 1 ++ (5 ∷ 6 ∷ 7 ∷ 8 ∷ 8 ∷ []) in
        rest 1 (zip column joined) ≡ 2 ∷ 1 ∷ [] }
{}

/// Leaves of three columns: one with the values 1 to 32, one with 1, 1, 1, 2, 2, 3, and one without rows.
pub fn leaves()
    ensures cuts { let column = range_with_len 1 32 in cuts nat_le column ≡ column }
    ensures five { leaf_of nat_le (range_with_len 1 32) 5 ≡ 4 }
    ensures two { leaf_of nat_le (range_with_len 1 32) 2 ≡ 1 }
    ensures node { node_size 4 1 ≡ 8 }
    ensures range { let column = range_with_len 1 32 in list_of_range nat_le 1 (zip column column) (Some 4) (Some 1) ≡ replicate 8 1 }
    ensures one_of_three { leaf_of nat_le (1 ∷ 1 ∷ 1 ∷ 2 ∷ 2 ∷ 3 ∷ []) 1 ≡ 15 }
    ensures two_of_three { leaf_of nat_le (1 ∷ 1 ∷ 1 ∷ 2 ∷ 2 ∷ 3 ∷ []) 2 ≡ 26 }
    ensures three_of_three { leaf_of nat_le (1 ∷ 1 ∷ 1 ∷ 2 ∷ 2 ∷ 3 ∷ []) 3 ≡ 31 }
    ensures no_cuts { cuts nat_le [] ≡ [] }
    ensures no_leaf { leaf_of nat_le [] 7 ≡ 0 }
    ensures no_rows { list_of_range nat_le 1 [] None None ≡ [] }
{}
