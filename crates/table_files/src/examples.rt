//! Examples of `tables_stage`, as theorems that are proved by computation.
ghost use Rattle.std.specs.Prelude.{◌≡◌, ◌∷◌, [], codes, Err};
ghost use Rattle.outcomes.specs.declared.names.FileId.TheVariants as file;
ghost use Rattle.outcomes.specs.declared.refusal.Refusal.TheVariants as refusal;
ghost use Rattle.table_files.specs.Examples.{numbers_table, only_r, s_r_s, two_tables};
ghost use Rattle.table_files.specs.Stage.{without_repeats, rows_by_entry, tables_of_query, tables_stage};
ghost use Rattle.table_files.specs.FileNames.{file_name};

/// For FROM S, R, S the stage reads S and then R, and the third entry has the rows of the first.
pub fn order_of_tables()
    ensures name { file_name (numbers_table (codes "Big_R")) ≡ codes "big_r.csv" }
    ensures once { tables_of_query s_r_s ≡ 1 ∷ 0 ∷ [] }
    ensures shared { rows_by_entry s_r_s (([] ∷ []) ∷ [] ∷ []) ≡ ([] ∷ []) ∷ [] ∷ ([] ∷ []) ∷ [] }
    ensures first { without_repeats (3 ∷ 1 ∷ 3 ∷ 2 ∷ 1 ∷ []) ≡ 3 ∷ 1 ∷ 2 ∷ [] }
{}

#[tactic(auto, unfolding(crate::specs::TableFile::file_rows, crate::specs::Stage::tables_stage))]
/// The first absent file in the order of FROM is reported, whatever the order of the schema is.
pub fn first_absent_file()
    ensures none { tables_stage two_tables s_r_s [] ≡ Err (refusal.Missing (file.Table 1)) }
    ensures first { tables_stage two_tables s_r_s only_r ≡ Err (refusal.Missing (file.Table 1)) }
{}
