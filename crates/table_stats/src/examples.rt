//! The statistics of a small table, as theorems that are proved by computation.
ghost use Rattle.std.specs.Prelude.{◌≡◌, ◌∷◌, [], map, None, Some};
ghost use Rattle.filtered_lists.specs.Examples.{range_x, six_rows, value};
ghost use Rattle.table_stats.specs.Columns.{leaf_of_value, as_first_rows};
ghost use Rattle.table_stats.specs.Examples.{column_of_six, table_without_rows, table_of_six};
ghost use Rattle.table_stats.specs.Statistics.{column_lists, entry_counts};

/// The numbers and the leaves of a column X with the values 1, 1, 1, 2, 2, 3. The value 0 is below each cut and has leaf 0.
pub fn columns()
    ensures numbers { as_first_rows column_of_six ≡ 0 ∷ 0 ∷ 0 ∷ 3 ∷ 3 ∷ 5 ∷ [] }
    ensures leaves { map (leaf_of_value column_of_six) (value 1 ∷ value 2 ∷ value 3 ∷ []) ≡ 15 ∷ 26 ∷ 31 ∷ [] }
    ensures others { map (leaf_of_value column_of_six) (value 0 ∷ value 9 ∷ []) ≡ 0 ∷ 31 ∷ [] }
{}

/// The lists of column X, which is both the joined column and the filter column. A value that no row has is given the rest list, which is empty here.
pub fn lists()
    ensures whole { (column_lists table_of_six 1 0 0).whole ≡ six_rows.whole }
    ensures equal { map ((column_lists table_of_six 1 0 0).equal 0) (value 1 ∷ value 2 ∷ value 3 ∷ [])
        ≡ (3 ∷ []) ∷ (2 ∷ []) ∷ (1 ∷ []) ∷ [] }
    ensures absent { (column_lists table_of_six 1 0 0).equal 0 (value 7) ≡ [] }
    // the ranges up to 1, from 3 on, and up to 2
    ensures ranges { map (column_lists table_of_six 1 0 0).range
        (range_x None (Some (value 1)) ∷ range_x (Some (value 3)) None ∷ range_x None (Some (value 2)) ∷ [])
        ≡ (3 ∷ []) ∷ (1 ∷ []) ∷ (3 ∷ 3 ∷ []) ∷ [] }
    // the range from 3 to 1: only the node of all leaves holds both leaves, 31 and 15
    ensures ends_swapped { (column_lists table_of_six 1 0 0).range (range_x (Some (value 3)) (Some (value 1))) ≡ 3 ∷ 3 ∷ [] }
    ensures no_rows { let none = column_lists table_without_rows 1 0 0 in
        none.whole ∷ none.equal 0 (value 1) ∷ none.range (range_x (Some (value 1)) None) ∷ [] ≡ [] ∷ [] ∷ [] ∷ [] }
{}

/// The row counts for conditions on column X. Each count is the sum of the list for the same condition.
pub fn counts()
    ensures whole { (entry_counts table_of_six 0).whole ≡ 6 }
    ensures equal { map ((entry_counts table_of_six 0).equal 0) (value 1 ∷ value 2 ∷ value 3 ∷ value 7 ∷ []) ≡ 3 ∷ 2 ∷ 1 ∷ 0 ∷ [] }
    ensures ranges { map (entry_counts table_of_six 0).range
        (range_x None (Some (value 1)) ∷ range_x (Some (value 3)) None ∷ range_x None (Some (value 2)) ∷ [])
        ≡ 3 ∷ 1 ∷ 6 ∷ [] }
{}
