//! After an append, the new statistics file stands for the old rows followed by the new rows. These functions compute nothing: each contract is a
//! law.
ghost use Rattle.std.specs.Prelude.{◌≡◌, ◌++◌, ℕ, List};
ghost use Rattle.csv_tables.specs.Rows.{Row};
ghost use Rattle.query_types.specs.declared.types.Query.{Query};
ghost use Rattle.schema_types.specs.declared.types.Schema.{Schema};
ghost use Rattle.sql_meaning.specs.Tables.{Tables};
ghost use Rattle.stats_file.specs.declared.types.StatsFile.{StatsFile};
ghost use Rattle.stats_file.specs.declared.types.TableStats.{TableStats};
ghost use Rattle.stats_file.specs.Rules.{IsSection, KeepsRules};
ghost use Rattle.cond_stats.specs.Frequency.{remaining};
ghost use Rattle.cond_stats.specs.Lists.{rest};
ghost use Rattle.cond_stats.specs.Rows.{filter_values};
ghost use Rattle.stats_file_of_query.specs.Standing.{SectionStandsFor, StandsFor};
ghost use Rattle.appended_stats.specs.Appended.{file_after, section_after};
ghost use Rattle.appended_stats.specs.Conditions.{HasNewRows};
ghost use Rattle.appended_stats.specs.Grown.{list_for_any_of};

/// If a section stands for the rows of a table, the section after the append stands for these rows followed by the new rows.
pub fn sections_still_stand()
    ensures { (schema : Schema) (section : TableStats) (accuracy : ℕ) (tables after : Tables) (entry : ℕ) (rows : List Row)
        → IsSection schema section → SectionStandsFor section tables entry → after entry ≡ tables entry ++ rows
        → SectionStandsFor (section_after accuracy rows section) after entry }
{}

/// If the old file stands for a query's tables before the append, the new file stands for the tables after it. In the tables after the append, one
/// table has the new rows after its old rows.
pub fn files_still_stand()
    ensures { (schema : Schema) (query : Query) (file : StatsFile) (tables after : Tables) (table : ℕ) (rows : List Row)
        → KeepsRules schema file → StandsFor query file tables → HasNewRows query table rows tables after
        → StandsFor query (file_after file table rows) after }
{}

/// The rest list of a column is `list_for_any_of` for the column's values that aren't frequent. An append adds to it `list_for_any_of` for the new
/// rows' values that aren't frequent.
pub fn the_rest_list_is_for_any_value()
    ensures { (accuracy : ℕ) (rows : List (ℕ × ℕ)) → rest accuracy rows ≡ list_for_any_of accuracy rows (remaining (filter_values rows)) }
{}
