//! Appends to small files, as theorems by computation.
ghost use Rattle.std.specs.Prelude.{◌≡◌, ◌∷◌, [], length, pos};
ghost use Rattle.csv_tables.specs.Values.{Int};
ghost use Rattle.stats_file.specs.declared.types.Datum.TheVariants as datum;
ghost use Rattle.stats_file_of_query.specs.Standing.{list_of_node, list_of_value};
ghost use Rattle.appended_stats.specs.Appended.{pair_after};
ghost use Rattle.appended_stats.specs.Examples.{new_rows, pair_of_eight_rows, pair_of_four_rows, stats_of_column_with_itself, pair_of_six_rows};

/// In all examples one column is both filter column and joined column. The first example appends 1 and 4 to the column [1, 1, 1, 2, 2, 3]. The value
/// 4 counts in the rest list and in the last leaf, where 3 lies. The second example appends 99 to the column [1, 2, 3]. If the old column is empty,
/// the new pair is that of the new rows. An append without rows changes nothing.
pub fn small_appends()
    ensures whole { pair_of_eight_rows.whole ≡ 4 ∷ 4 ∷ [] }
    ensures frequent { pair_of_eight_rows.frequent ≡ (datum.Int (pos 1), 4 ∷ []) ∷ (datum.Int (pos 2), 2 ∷ []) ∷ (datum.Int (pos 3), 1 ∷ []) ∷ [] }
    ensures rest { pair_of_eight_rows.rest ≡ 1 ∷ [] }
    ensures cuts { pair_of_eight_rows.cuts ≡ pair_of_six_rows.cuts }
    ensures nodes { length pair_of_eight_rows.nodes ≡ 63 }
    ensures leaf_15 { list_of_node pair_of_eight_rows 1 15 ≡ 4 ∷ [] }
    // the lists of the values 3 and 4 are added rank by rank
    ensures leaf_31 { list_of_node pair_of_eight_rows 1 31 ≡ 2 ∷ [] }
    ensures all_leaves { list_of_node pair_of_eight_rows 32 0 ≡ 4 ∷ 4 ∷ [] }
    ensures fourth { pair_of_four_rows.whole ≡ 2 ∷ 1 ∷ 1 ∷ [] }
    ensures new_value { list_of_value pair_of_four_rows (Int (pos 99)) ≡ 1 ∷ [] }
    ensures first_rows { pair_after 1 0 (new_rows (1 ∷ 2 ∷ 3 ∷ [])) (stats_of_column_with_itself []) ≡ stats_of_column_with_itself (1 ∷ 2 ∷ 3 ∷ []) }
    ensures no_rows { pair_after 1 6 (new_rows []) pair_of_six_rows ≡ pair_of_six_rows }
{}
