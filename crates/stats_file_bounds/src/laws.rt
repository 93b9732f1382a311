//! Laws of bounds from files. Each function does nothing; its contract is the law.
ghost use Rattle.std.specs.Prelude.{◌≡◌, ◌<◌, ◌≤◌, ℕ, None, length};
ghost use Rattle.limits.specs.Profile.{most_rows};
ghost use Rattle.join_steps.specs.Lists.{scans_of};
ghost use Rattle.level_bounds.specs.Keys.{Keys};
ghost use Rattle.planning.specs.Standing.{BoundLevels, BoundLists};
ghost use Rattle.query_bounds.specs.Statistics.{StandFor};
ghost use Rattle.query_types.specs.Named.{NamesItsEntries};
ghost use Rattle.query_types.specs.declared.types.Query.{Query};
ghost use Rattle.sql_meaning.specs.Tables.{Tables, row_counts};
ghost use Rattle.stats_file.specs.declared.types.StatsFile.{StatsFile};
ghost use Rattle.table_stats.specs.Keys.{SeparatesValues};
ghost use Rattle.stats_file_of_query.specs.Standing.{StandsFor};
ghost use Rattle.stats_file_bounds.specs.Bounds.{scan_bounds_of_file, set_bounds_of_file};
ghost use Rattle.stats_file_bounds.specs.Entries.{KeepsRulesOfSome};
ghost use Rattle.stats_file_bounds.specs.FileStatistics.{stats_file_statistics};
ghost use Rattle.stats_file_bounds.specs.Found.{first_missing};

/// Suppose that a file stands for tables and has all statistics that a query needs. Then the statistics from the file stand for these tables, with
/// any keys that are equal exactly if the rows' values are equal (`SeparatesValues`). So no bound that is made from these statistics is too low for
/// these tables.
pub fn files_are_never_under()
    ensures { (query : Query) (file : StatsFile) (tables : Tables) (key : Keys) → NamesItsEntries query → KeepsRulesOfSome file → StandsFor query file tables
        → first_missing query file ≡ None → ((entry column : ℕ) → SeparatesValues tables entry column (key entry column))
        → StandFor query (stats_file_statistics query file) tables key }
{}

/// Suppose that a file stands for tables. Then no scan of the query has more rows than its bound. No level over the entries of a set has more rows
/// than the bound of the set. Each scan's bound is at most the number of rows of its table, and no table has more than 4,000,000 rows. So no bound of
/// a plan from the file is too low for these tables, whether the plan is an order or a join tree.
pub fn bounds_from_files_are_never_under()
    ensures sets { (query : Query) (file : StatsFile) (tables : Tables) → NamesItsEntries query → KeepsRulesOfSome file → first_missing query file ≡ None
        → StandsFor query file tables → BoundLevels query tables (scans_of query tables) (set_bounds_of_file query file) }
    ensures scans { (query : Query) (file : StatsFile) (tables : Tables) → NamesItsEntries query → KeepsRulesOfSome file → first_missing query file ≡ None
        → StandsFor query file tables → BoundLists query tables (scans_of query tables) (scan_bounds_of_file query file) }
    ensures tables { (query : Query) (file : StatsFile) (tables : Tables) → NamesItsEntries query → KeepsRulesOfSome file → first_missing query file ≡ None
        → StandsFor query file tables → (entry : ℕ) → entry < length query.from → row_counts tables entry ≤ most_rows }
{}
