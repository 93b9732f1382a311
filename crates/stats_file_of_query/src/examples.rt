//! The pairs that small queries need, and their statistics files, as theorems by computation.
ghost use Rattle.std.specs.Prelude.{◌≡◌, ◌∷◌, [], None, Some, length, map, pos};
ghost use Rattle.csv_tables.specs.Values.{Int};
ghost use Rattle.query_bounds.specs.Examples.{two_table_query};
ghost use Rattle.stats_file.specs.declared.types.Datum.TheVariants as datum;
ghost use Rattle.stats_file_of_query.specs.ColumnPairs.{column_pair, pairs_between};
ghost use Rattle.stats_file_of_query.specs.Examples.{filtered_join, one_value, rows_of, schema_of_one, schema_of_pair};
ghost use Rattle.stats_file_of_query.specs.Files.{file_of_query};
ghost use Rattle.stats_file_of_query.specs.Needs.{needed, needed_of_table};
ghost use Rattle.stats_file_of_query.specs.Pairs.{pair_in_table};
ghost use Rattle.stats_file_of_query.specs.Standing.{leaf_of_value, list_between, list_of_value};

/// The pairs that three queries need. The first query joins two tables by X. The second query also compares S.Y with two literals. The third query
/// compares X of one table. The last clauses compute the pairs between given filter columns and joined columns.
pub fn small_needs()
    ensures joined { needed two_table_query 0 ≡ column_pair 0 0 ∷ [] }
    ensures filtered { needed filtered_join 1 ≡ column_pair 1 0 ∷ [] }
    ensures beside { needed filtered_join 0 ≡ column_pair 0 0 ∷ [] }
    ensures of_table { needed_of_table filtered_join 1 ≡ column_pair 1 0 ∷ [] }
    ensures compared { needed one_value 0 ≡ column_pair 0 0 ∷ [] }
    ensures neither { pairs_between [] [] ≡ [] }
    ensures both { pairs_between (2 ∷ 1 ∷ []) (0 ∷ 3 ∷ [])
        ≡ column_pair 2 0 ∷ column_pair 2 3 ∷ column_pair 1 0 ∷ column_pair 1 3 ∷ [] }
{}

/// The statistics of the pair of X with itself, where X has the values [1, 1, 1, 2, 2, 3]. The clauses compute the list of all rows, the frequent
/// values' lists and the rest list; the leaf of 2; and the lists of a value, of a value that no row has, and of a range.
pub fn small_files()
    ensures whole { (pair_in_table (rows_of (1 ∷ 1 ∷ 1 ∷ 2 ∷ 2 ∷ 3 ∷ [])) 1 0 0 0).whole ≡ 3 ∷ 3 ∷ [] }
    ensures frequent { (pair_in_table (rows_of (1 ∷ 1 ∷ 1 ∷ 2 ∷ 2 ∷ 3 ∷ [])) 1 0 0 0).frequent
        ≡ (datum.Int (pos 1), 3 ∷ []) ∷ (datum.Int (pos 2), 2 ∷ []) ∷ (datum.Int (pos 3), 1 ∷ []) ∷ [] }
    ensures rest { (pair_in_table (rows_of (1 ∷ 1 ∷ 1 ∷ 2 ∷ 2 ∷ 3 ∷ [])) 1 0 0 0).rest ≡ [] }
    ensures leaf { leaf_of_value (pair_in_table (rows_of (1 ∷ 1 ∷ 1 ∷ 2 ∷ 2 ∷ 3 ∷ [])) 1 0 0 0) (Int (pos 2)) ≡ 26 }
    ensures value { list_of_value (pair_in_table (rows_of (1 ∷ 1 ∷ 1 ∷ 2 ∷ 2 ∷ 3 ∷ [])) 1 0 0 0) (Int (pos 1)) ≡ 3 ∷ [] }
    ensures absent { list_of_value (pair_in_table (rows_of (1 ∷ 1 ∷ 1 ∷ 2 ∷ 2 ∷ 3 ∷ [])) 1 0 0 0) (Int (pos 9)) ≡ [] }
    ensures range { list_between (pair_in_table (rows_of (1 ∷ 1 ∷ 1 ∷ 2 ∷ 2 ∷ 3 ∷ [])) 1 0 0 0) (Some (Int (pos 2))) None ≡ 2 ∷ 1 ∷ [] }
    // the file of a join has both tables, each with one pair. The file of a query over one table has the pair of the filter column with itself
    ensures tables { map (λ section. section.table) (file_of_query schema_of_pair two_table_query (rows_of (1 ∷ [])) 1).tables ≡ 0 ∷ 1 ∷ [] }
    ensures pairs { map (λ section. length section.pairs) (file_of_query schema_of_pair two_table_query (rows_of []) 1).tables ≡ 1 ∷ 1 ∷ [] }
    ensures one { map (λ section. section.rows) (file_of_query schema_of_one one_value (rows_of (1 ∷ 2 ∷ 3 ∷ [])) 1).tables ≡ 3 ∷ [] }
{}
