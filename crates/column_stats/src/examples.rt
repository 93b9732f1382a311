//! What the definitions give for small columns, as theorems that are proved by computation.
ghost use Rattle.std.specs.Prelude.{◌≡◌, [], ◌∷◌, None, Some, pos, length, replicate};
ghost use Rattle.std.specs.List.{range_with_len};
ghost use Rattle.csv_tables.specs.Values.{Int};
ghost use Rattle.column_stats.specs.Examples.{stats_with_itself, stats_of_six};
ghost use Rattle.column_stats.specs.Stats.{leaf_by_cuts, list_for_range, list_for_value};

/// The column 1, 1, 1, 2, 2, 3: the lists of a frequent value, of an absent value and of two ranges. The value 2 has leaf 26, and 3 has leaf 31.
pub fn six_rows()
    ensures value { list_for_value stats_of_six (Some 1) ≡ 3 ∷ [] }
    ensures absent { list_for_value stats_of_six None ≡ [] }
    ensures leaf { leaf_by_cuts [] stats_of_six (Int (pos 2)) ≡ 26 }
    // the least node that holds leaves 26 and 31 has 8 leaves; the rows with 2 and with 3 lie in it
    ensures range { list_for_range stats_of_six (Some 26) None ≡ 2 ∷ 1 ∷ [] }
    ensures all { list_for_range stats_of_six None None ≡ 3 ∷ 3 ∷ [] }
    ensures nodes { length stats_of_six.nodes ≡ 63 }
{}

/// The column 1 to 32: the least node that holds the leaves of 5 and 2 has 8 rows. It doesn't matter which end is the low one.
pub fn ends_swapped()
    ensures { list_for_range (stats_with_itself (range_with_len 1 32)) (Some 4) (Some 1) ≡ replicate 8 1 }
{}

/// Without rows there are no cuts and no nodes, the leaf of a value is 0, and the list of a range is empty.
pub fn no_rows()
    ensures cuts { (stats_with_itself []).cuts ≡ [] }
    ensures nodes { (stats_with_itself []).nodes ≡ [] }
    ensures leaf { leaf_by_cuts [] (stats_with_itself []) (Int (pos 7)) ≡ 0 }
    ensures range { list_for_range (stats_with_itself []) None None ≡ [] }
{}
