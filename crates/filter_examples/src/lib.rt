//! Worked examples of filters over small columns, from a column's cells to the list of the filtered entry. All are proved by computation.
//! The row bound of an entry is the sum of its list.
#![tactic(auto)]

ghost use Rattle.std.specs.Prelude.{◌≡◌, [], ◌∷◌, None, Some, replicate};
ghost use Rattle.std.specs.List.{range_with_len, sum};
ghost use Rattle.degree_sequences.specs.ByRank.{rank_sum};
ghost use Rattle.query_grammar.specs.declared.tree.Op.TheVariants as op;
ghost use Rattle.query_types.specs.declared.types.Cond.{And, Compare, Not, Or};
ghost use Rattle.filtered_lists.specs.Examples.{column_x, list_where, range_x, value, x_is};
ghost use Rattle.filter_examples.specs.Columns.{lists_of};

/// Filters over a column that is the joined column too.
pub fn small_columns()
    // X = 99 over 1 to 40: a value that is in no row has the rest list, which counts the eight values that aren't frequent
    ensures absent_among_forty { list_where (lists_of (range_with_len 1 40)) (x_is op.Eq 99) ≡ 1 ∷ [] }
    // over 1, 2, 3 all values are frequent, so the rest list is empty
    ensures absent_among_three { list_where (lists_of (1 ∷ 2 ∷ 3 ∷ [])) (x_is op.Eq 99) ≡ [] }
    // X > 5 AND X < 2 over 1 to 32. The smallest node that holds the leaves of both ends has eight rows
    ensures ends_swapped { list_where (lists_of (range_with_len 1 32)) (And (x_is op.Gt 5 ∷ x_is op.Lt 2 ∷ [])) ≡ replicate 8 1 }
    // X = 1 OR X = 1 OR X = 1 over 1, 1, 1, 2, 2, 3. The lists sum to 9 rows, and the list of all rows limits the result to 6
    ensures thrice { list_where (lists_of (1 ∷ 1 ∷ 1 ∷ 2 ∷ 2 ∷ 3 ∷ [])) (Or (x_is op.Eq 1 ∷ x_is op.Eq 1 ∷ x_is op.Eq 1 ∷ []))
        ≡ 3 ∷ 3 ∷ [] }
    // NOT (X IN (1, 3)). The lists of X <> 1 and X <> 3 sum to 9 and 7 rows. The list of all rows limits the result to 6
    ensures not_in { list_where (lists_of (1 ∷ 1 ∷ 1 ∷ 2 ∷ 2 ∷ 3 ∷ [])) (Not (Or (x_is op.Eq 1 ∷ x_is op.Eq 3 ∷ []))) ≡ 3 ∷ 3 ∷ [] }
    // the two sums of NOT (X IN (1, 3)). X <> 1 has the lists of two ranges: up to 1 (3 rows) and from 1 on (6 rows). X <> 3 has those of the
    // ranges up to 3 (6 rows) and from 3 on (1 row)
    ensures other_than_one { let lists = lists_of (1 ∷ 1 ∷ 1 ∷ 2 ∷ 2 ∷ 3 ∷ []) in
        sum (rank_sum (lists.range (range_x None (Some (value 1)))) (lists.range (range_x (Some (value 1)) None))) ≡ 9 }
    ensures other_than_three { let lists = lists_of (1 ∷ 1 ∷ 1 ∷ 2 ∷ 2 ∷ 3 ∷ []) in
        sum (rank_sum (lists.range (range_x None (Some (value 3)))) (lists.range (range_x (Some (value 3)) None))) ≡ 7 }
    // X = X compares with no literal, so it has the list of all rows
    ensures same { list_where (lists_of (1 ∷ 1 ∷ 1 ∷ 2 ∷ 2 ∷ 3 ∷ [])) (Compare op.Eq column_x column_x) ≡ 3 ∷ 3 ∷ [] }
{}
