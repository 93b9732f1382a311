//! Laws of the statistics file of a query. Each function does nothing; its contract is the law.
ghost use Rattle.std.specs.Prelude.{◌≡◌, ◌<◌, ◌≤◌, ℕ, None, Ok};
ghost use Rattle.csv_tables.specs.declared.types.Database.{Database};
ghost use Rattle.gathered_stats.specs.Statistics.{statistics_of};
ghost use Rattle.query_bounds.specs.Bounds.{entry_bounds, scan_bounds, set_bounds};
ghost use Rattle.query_types.specs.declared.types.Query.{Query};
ghost use Rattle.schema_types.specs.declared.types.Schema.{Schema};
ghost use Rattle.sql_meaning.specs.Tables.{tables_of};
ghost use Rattle.stats_file.specs.FileText.{file_text};
ghost use Rattle.stats_reading.specs.Names.{HasByteColumns};
ghost use Rattle.stats_answers.specs.StatsTexts.{stats_answer};
ghost use Rattle.stats_file_of_query.specs.Databases.{FitsQueryAndTexts};
ghost use Rattle.stats_file_of_query.specs.Files.{file_of_query};
ghost use Rattle.stats_file_bounds.specs.FileStatistics.{stats_file_statistics};
ghost use Rattle.stats_file_bounds.specs.Found.{first_missing};

/// The statistics file of a query at an accuracy lacks nothing that the query needs. The file gives the same bounds of scans, entries and sets as the
/// statistics of the query's tables at this accuracy.
pub fn bounds_from_files_are_exact()
    ensures all { (schema : Schema) (query : Query) (db : Database) (accuracy : ℕ) → FitsQueryAndTexts schema query db
        → 0 < accuracy → accuracy ≤ 64 → first_missing query (file_of_query schema query (tables_of db) accuracy) ≡ None }
    ensures scans { (schema : Schema) (query : Query) (db : Database) (accuracy : ℕ) → FitsQueryAndTexts schema query db
        → 0 < accuracy → accuracy ≤ 64
        → scan_bounds query (stats_file_statistics query (file_of_query schema query (tables_of db) accuracy))
        ≡ scan_bounds query (statistics_of (tables_of db) accuracy) }
    ensures bounds { (schema : Schema) (query : Query) (db : Database) (accuracy : ℕ) → FitsQueryAndTexts schema query db
        → 0 < accuracy → accuracy ≤ 64
        → entry_bounds query (stats_file_statistics query (file_of_query schema query (tables_of db) accuracy))
        ≡ entry_bounds query (statistics_of (tables_of db) accuracy) }
    ensures sets { (schema : Schema) (query : Query) (db : Database) (accuracy : ℕ) → FitsQueryAndTexts schema query db
        → 0 < accuracy → accuracy ≤ 64
        → set_bounds query (stats_file_statistics query (file_of_query schema query (tables_of db) accuracy))
        ≡ set_bounds query (statistics_of (tables_of db) accuracy) }
{}

/// The text of the statistics file of a query is read back as the same file.
pub fn files_are_read_back()
    ensures { (schema : Schema) (query : Query) (db : Database) (accuracy : ℕ) → FitsQueryAndTexts schema query db → HasByteColumns schema
        → 0 < accuracy → accuracy ≤ 64
        → stats_answer schema (file_text schema (file_of_query schema query (tables_of db) accuracy))
        ≡ Ok (file_of_query schema query (tables_of db) accuracy) }
{}
