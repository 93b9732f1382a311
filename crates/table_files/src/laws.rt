//! Laws on what the stage gives each entry.
ghost use Rattle.std.specs.Prelude.{◌≡◌, ◌<◌, ℕ, List, [], ◌∷◌, length, slice_index, slice_index_or, Err, Ok};
ghost use Rattle.base_io.specs.Files.{Files};
ghost use Rattle.csv_tables.specs.Rows.{Row};
ghost use Rattle.outcomes.specs.declared.refusal.Refusal.{Refusal};
ghost use Rattle.query_types.specs.declared.types.Source.{Source};
ghost use Rattle.schema_types.specs.declared.types.Schema.{Schema};
ghost use Rattle.table_files.specs.EntryTables.{CanComeFromFiles, tables_in};
ghost use Rattle.table_files.specs.Stage.{numbers_of, table_rows, tables_stage};

/// If no file is refused, the stage gives each entry the rows of its own table's file. The `Tables` made of these rows come from files too. For a
/// query of one entry the stage gives the rows of its table, or the refusal of its file. The function does nothing.
pub fn entries_have_their_rows()
    ensures each { (schema : Schema) (from : List Source) (files : Files) (rows : List (List Row))
        → tables_stage schema from files ≡ Ok rows
        → (entry : ℕ) → entry < length from
        → table_rows schema (slice_index (numbers_of from) entry) files ≡ Ok (slice_index_or rows entry []) }
    ensures files { (schema : Schema) (from : List Source) (files : Files) (rows : List (List Row))
        → tables_stage schema from files ≡ Ok rows → CanComeFromFiles schema from (tables_in rows) }
    ensures one { (schema : Schema) (source : Source) (files : Files) (rows : List Row) → table_rows schema source.table files ≡ Ok rows
        → tables_stage schema (source ∷ []) files ≡ Ok (rows ∷ []) }
    ensures refused { (schema : Schema) (source : Source) (files : Files) (r : Refusal) → table_rows schema source.table files ≡ Err r
        → tables_stage schema (source ∷ []) files ≡ Err r }
{}
