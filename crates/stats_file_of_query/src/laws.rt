//! Laws of the statistics file of a query. Each function does nothing; its contract is the law.
ghost use Rattle.std.specs.Prelude.{◌<◌, ◌≤◌, ℕ};
ghost use Rattle.csv_tables.specs.declared.types.Database.{Database};
ghost use Rattle.query_types.specs.declared.types.Query.{Query};
ghost use Rattle.schema_types.specs.declared.types.Schema.{Schema};
ghost use Rattle.sql_meaning.specs.Tables.{Tables, tables_of};
ghost use Rattle.stats_file.specs.Rules.{KeepsRules};
ghost use Rattle.stats_file_of_query.specs.Databases.{FitsQueryAndTexts};
ghost use Rattle.stats_file_of_query.specs.Files.{file_of_query};
ghost use Rattle.stats_file_of_query.specs.Standing.{ShareRows, StandsFor};

/// The file of a query keeps the rules of files, so that it can be written and read back.
pub fn files_keep_the_rules()
    ensures { (schema : Schema) (query : Query) (db : Database) (accuracy : ℕ) → FitsQueryAndTexts schema query db → 0 < accuracy → accuracy ≤ 64
        → KeepsRules schema (file_of_query schema query (tables_of db) accuracy) }
{}

/// The file of a query stands for the query's tables, if entries of the same table have the same rows.
pub fn files_stand_for_their_tables()
    ensures { (schema : Schema) (query : Query) (tables : Tables) (accuracy : ℕ) → ShareRows query tables
        → StandsFor query (file_of_query schema query tables accuracy) tables }
{}
