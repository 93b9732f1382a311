//! Laws of the definitions. Each function does nothing, and its contract is the law.
ghost use Rattle.std.specs.Prelude.{◌≡◌, ℕ, ◌<◌, ◌≤◌, List, [], length, map};
ghost use Rattle.std.specs.List.{All, sum};
ghost use Rattle.degree_sequences.specs.Domination.{DominatesKeys};
ghost use Rattle.degree_sequences.specs.Descending.{IsDescending};
ghost use Rattle.degree_sequences.specs.RunningSums.{HasHigherSums};
ghost use Rattle.query_types.specs.declared.types.Cond.{Cond};
ghost use Rattle.sql_meaning.specs.Tables.{Tables};
ghost use Rattle.filtered_lists.specs.Filters.{own_conjuncts};
ghost use Rattle.filtered_lists.specs.Lists.{ColumnLists, RowCounts, filtered_list, row_bound};
ghost use Rattle.filtered_lists.specs.Standing.{CountsStandFor, ListsDescend, ListsStandFor, SumTo, scan_of};

/// No filtered list and no row bound is too low, if the statistics stand for the entry's table. The
/// list of the filtered entry dominates the keys that the rows of the entry's scan have in the
/// joined column. The sum of the list, and the row bound, are at least the number of these rows.
/// `key` gives the key of each row in the joined column.
pub fn filters_are_never_under()
    ensures list { (lists : ColumnLists) (tables : Tables) (entry : ℕ) (key : ℕ → ℕ) (conjuncts : List Cond)
        → ListsStandFor lists tables entry key
        → DominatesKeys (filtered_list lists entry conjuncts) (map key (scan_of tables entry conjuncts)) }
    ensures sum { (lists : ColumnLists) (tables : Tables) (entry : ℕ) (key : ℕ → ℕ) (conjuncts : List Cond)
        → ListsStandFor lists tables entry key
        → length (scan_of tables entry conjuncts) ≤ sum (filtered_list lists entry conjuncts) }
    ensures rows { (counts : RowCounts) (tables : Tables) (entry : ℕ) (conjuncts : List Cond)
        → CountsStandFor counts tables entry
        → length (scan_of tables entry conjuncts) ≤ row_bound counts entry conjuncts }
{}

/// The row bound is the sum of the filtered list. So it is the same for all joined columns whose lists have the same sums. The row bound is at
/// most the number of all rows.
pub fn row_bounds_are_sums()
    ensures sum { (lists : ColumnLists) (counts : RowCounts) (entry : ℕ) (conjuncts : List Cond)
        → SumTo lists counts → sum (filtered_list lists entry conjuncts) ≡ row_bound counts entry conjuncts }
    ensures rows { (counts : RowCounts) (entry : ℕ) (conjuncts : List Cond) → row_bound counts entry conjuncts ≤ counts.whole }
{}

/// The filtered list is in descending order if the statistics' lists are. At every rank its running sum is at most that of the list of all rows.
/// Without own conjuncts the row bound is the number of all rows. The filtered list is then the list of all rows, if this list has no zeros.
pub fn filters_stay_within_the_whole()
    ensures descends { (lists : ColumnLists) (entry : ℕ) (conjuncts : List Cond) → ListsDescend lists
        → IsDescending (filtered_list lists entry conjuncts) }
    ensures within { (lists : ColumnLists) (entry : ℕ) (conjuncts : List Cond)
        → HasHigherSums lists.whole (filtered_list lists entry conjuncts) }
    ensures unfiltered { (lists : ColumnLists) (entry : ℕ) (conjuncts : List Cond)
        → own_conjuncts entry conjuncts ≡ [] → All (λ x. 0 < x) lists.whole
        → filtered_list lists entry conjuncts ≡ lists.whole }
    ensures unfiltered_rows { (counts : RowCounts) (entry : ℕ) (conjuncts : List Cond)
        → own_conjuncts entry conjuncts ≡ [] → row_bound counts entry conjuncts ≡ counts.whole }
{}
