//! Laws from which the laws of `file_plans` are proved. A call does nothing; its contract is the law.
ghost use Rattle.std.specs.Prelude.{◌≡◌, ℕ, List, Ok};
ghost use Rattle.base_io.specs.Files.{Files};
ghost use Rattle.stats_file_of_query.specs.Standing.{StandsFor};
ghost use Rattle.query_types.specs.declared.types.Query.{Query};
ghost use Rattle.sql_meaning.specs.Tables.{Tables};
ghost use Rattle.stats_answers.specs.StatsTexts.{stats_answer};
ghost use Rattle.stats_file.specs.FileText.{file_text};
ghost use Rattle.stats_file.specs.Rules.{KeepsRules};
ghost use Rattle.stats_file.specs.declared.types.StatsFile.{StatsFile};
ghost use Rattle.prepared_runs.specs.RunOutcome.{RunOutcome};
ghost use Rattle.safebound_laws.specs.Appends.{GrowsByFile};
ghost use Rattle.safebound_laws.specs.OtherQueries.{HaveSameRows, IsOfTables};

/// The statistics file that `append` writes keeps the rules of statistics files.
pub fn appended_files_keep_the_rules()
    ensures { (files : Files) (schema stats name rows : List ℕ) (outcome : RunOutcome) (grows : GrowsByFile files schema stats name rows outcome)
        → KeepsRules grows.schema grows.after }
{}

/// The text that `append` writes is read back as the statistics file that it made.
pub fn appended_texts_are_read_back()
    ensures { (files : Files) (schema stats name rows : List ℕ) (outcome : RunOutcome) (grows : GrowsByFile files schema stats name rows outcome)
        → stats_answer grows.schema (file_text grows.schema grows.after) ≡ Ok grows.after }
{}

/// Suppose that a statistics file has sections only of tables that a query names, and stands for the query's tables. Take another query, in which
/// each table that both queries name has the same rows. Then the file stands for the tables of this query too.
pub fn files_stand_for_other_queries()
    ensures { (query other : Query) (file : StatsFile) (tables also : Tables) → StandsFor query file tables → IsOfTables query file
        → HaveSameRows query tables other also → StandsFor other file also }
{}
