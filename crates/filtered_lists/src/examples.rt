//! What the definitions give for small conditions.
ghost use Rattle.std.specs.Prelude.{◌≡◌, ◌∷◌, [], codes, None, Some};
ghost use Rattle.csv_tables.specs.Values.{Text};
ghost use Rattle.degree_sequences.specs.ByRank.{rank_sum};
ghost use Rattle.degree_sequences.specs.RunningSums.{lesser};
ghost use Rattle.query_grammar.specs.declared.tree.Op.TheVariants as op;
ghost use Rattle.query_types.specs.declared.types.Operand.TheVariants as operand;
ghost use Rattle.query_types.specs.declared.types.Cond.{And, Or, Not, Compare};
ghost use Rattle.filtered_lists.specs.Examples.{column_of_other, column_x, column_y, number, value, x_is, y_is, is_x};
ghost use Rattle.filtered_lists.specs.Examples.{list_where, range_x, range_y, six_rows};
ghost use Rattle.filtered_lists.specs.Lists.{ColumnLists};

/// The list of one comparison, limited by the list of all rows.
pub fn comparisons()
    ensures equal { (lists : ColumnLists) → list_where lists (x_is op.Eq 5) ≡ lesser (lists.equal 0 (value 5)) lists.whole }
    ensures unequal { (lists : ColumnLists) → list_where lists (x_is op.Ne 5)
        ≡ lesser (rank_sum (lists.range (range_x None (Some (value 5)))) (lists.range (range_x (Some (value 5)) None))) lists.whole }
    ensures less { (lists : ColumnLists) → list_where lists (x_is op.Lt 5)
        ≡ lesser (lists.range (range_x None (Some (value 5)))) lists.whole }
    ensures turned { (lists : ColumnLists) → list_where lists (is_x 1 op.Lt)
        ≡ lesser (lists.range (range_x (Some (value 1)) None)) lists.whole }
    ensures not_at_least { (lists : ColumnLists) → list_where lists (Not (x_is op.Ge 5))
        ≡ lesser (lists.range (range_x None (Some (value 5)))) lists.whole }
    ensures text { (lists : ColumnLists) → list_where lists (Compare op.Gt column_x (operand.Text (codes "b")))
        ≡ lesser (lists.range (range_x (Some (Text (codes "b"))) None)) lists.whole }
    // a comparison of two columns of the entry, and a conjunct over two entries: both have the list of all rows
    ensures itself { (lists : ColumnLists) → list_where lists (Compare op.Eq column_x column_y) ≡ lesser lists.whole lists.whole }
    ensures joins { (lists : ColumnLists) → list_where lists (Compare op.Eq column_x column_of_other) ≡ lesser lists.whole lists.whole }
{}

/// The lists of AND, OR and NOT.
pub fn conditions()
    ensures ends_swapped { (lists : ColumnLists) → list_where lists (And (x_is op.Gt 5 ∷ x_is op.Lt 2 ∷ []))
        ≡ lesser (lists.range (range_x (Some (value 5)) (Some (value 2)))) lists.whole }
    ensures greatest_low { (lists : ColumnLists) → list_where lists (And (x_is op.Ge 3 ∷ x_is op.Gt 1 ∷ []))
        ≡ lesser (lists.range (range_x (Some (value 3)) None)) lists.whole }
    // X BETWEEN 2 AND 4 AND X <> 3
    ensures between { (lists : ColumnLists) → list_where lists (And (And (x_is op.Ge 2 ∷ x_is op.Le 4 ∷ []) ∷ x_is op.Ne 3 ∷ []))
        ≡ lesser (lesser (rank_sum (lists.range (range_x None (Some (value 3)))) (lists.range (range_x (Some (value 3)) None)))
        (lists.range (range_x (Some (value 2)) (Some (value 4))))) lists.whole }
    ensures two_columns { (lists : ColumnLists) → list_where lists (And (x_is op.Gt 1 ∷ y_is op.Lt 2 ∷ []))
        ≡ lesser (lesser (lists.range (range_x (Some (value 1)) None)) (lists.range (range_y None (Some (value 2))))) lists.whole }
    // 2 = 2 AND X = 1
    ensures literals { (lists : ColumnLists) → list_where lists (And (Compare op.Eq (number 2) (number 2) ∷ x_is op.Eq 1 ∷ []))
        ≡ lesser (lesser lists.whole (lists.equal 0 (value 1))) lists.whole }
    ensures nested { (lists : ColumnLists)
        → list_where lists (Or (And (x_is op.Eq 1 ∷ Or (x_is op.Eq 2 ∷ y_is op.Eq 3 ∷ []) ∷ []) ∷ x_is op.Eq 4 ∷ []))
        ≡ lesser (rank_sum (lesser (lists.equal 0 (value 1)) (rank_sum (lists.equal 0 (value 2)) (lists.equal 1 (value 3))))
        (lists.equal 0 (value 4))) lists.whole }
    ensures not_and { (lists : ColumnLists) → list_where lists (Not (And (x_is op.Eq 1 ∷ y_is op.Lt 2 ∷ [])))
        ≡ lesser (rank_sum (rank_sum (lists.range (range_x None (Some (value 1)))) (lists.range (range_x (Some (value 1)) None)))
        (lists.range (range_y (Some (value 2)) None))) lists.whole }
{}

/// A table of six rows: X is 1, 1, 1, 2, 2, 3.
pub fn tables()
    ensures thrice { list_where six_rows (Or (x_is op.Eq 1 ∷ x_is op.Eq 1 ∷ x_is op.Eq 1 ∷ [])) ≡ 3 ∷ 3 ∷ [] }
    // NOT (X IN (1, 3)). The lists of X <> 1 and X <> 3 sum to 9 and 7 rows. The list of all rows limits the result to 6
    ensures not_in { list_where six_rows (Not (Or (x_is op.Eq 1 ∷ x_is op.Eq 3 ∷ []))) ≡ 3 ∷ 3 ∷ [] }
    ensures once { list_where six_rows (x_is op.Eq 2) ≡ 2 ∷ [] }
{}
