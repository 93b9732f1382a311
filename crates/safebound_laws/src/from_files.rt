//! Laws about statistics files, and about the verdicts over them. A call does nothing; its contract is the law.
ghost use Rattle.std.specs.Prelude.{◌≡◌, ◌⊎◌, ◌<◌, ◌≤◌, ℕ, List, Result, Ok, Err, None, Some};
ghost use Rattle.limits.specs.Profile.{most_accuracy, most_file};
ghost use Rattle.base_io.specs.Files.{Files};
ghost use Rattle.outcomes.specs.Reads.{mapped};
ghost use Rattle.outcomes.specs.declared.names.FileId.TheVariants as file;
ghost use Rattle.safebound_words.specs.Commands.{over_query};
ghost use Rattle.safebound_words.specs.declared.command.PlanTerms.{PlanTerms};
ghost use Rattle.safebound_words.specs.declared.command.QueryTask.TheVariants as query_tasks;
ghost use Rattle.schema_types.specs.Texts.{IsSchemaOf};
ghost use Rattle.schema_types.specs.declared.types.Schema.{Schema};
ghost use Rattle.stats_answers.specs.StatsTexts.{stats_answer};
ghost use Rattle.stats_file.specs.Answers.{IsAllowedResult};
ghost use Rattle.stats_file.specs.FileText.{file_text};
ghost use Rattle.stats_file.specs.Rules.{KeepsRules};
ghost use Rattle.stats_file.specs.declared.types.StatsError.{StatsError};
ghost use Rattle.stats_file.specs.declared.types.StatsError.TheVariants as error;
ghost use Rattle.stats_file.specs.declared.types.StatsFile.{StatsFile};
ghost use Rattle.table_files.specs.TableFile.{read};
ghost use Rattle.prepared_runs.specs.RunOutcome.{RunOutcome};
ghost use Rattle.safebound_top.specs.OutcomeTexts.{out_text};
ghost use Rattle.prepared_runs.specs.Verdict.{command_run};
ghost use Rattle.safebound_laws.specs.Printed.{plan_of_columns, both_texts};

/// Take a schema that a text declares, and a statistics file that keeps the rules. Then `stats_answer` of the file's text is this file. A
/// reader of the text also returns this file, or says that memory ran out.
pub fn files_of_declared_schemas_are_read()
    ensures answered { (text : List ℕ) (schema : Schema) (file : StatsFile) → IsSchemaOf text (Ok schema) → KeepsRules schema file
        → stats_answer schema (file_text schema file) ≡ Ok file }
    ensures read { (text : List ℕ) (schema : Schema) (file : StatsFile) (answer : Result StatsFile StatsError)
        → IsSchemaOf text (Ok schema) → KeepsRules schema file → IsAllowedResult schema (file_text schema file) answer
        → (answer ≡ Ok file) ⊎ (answer ≡ Err error.NoMemory) }
{}

/// Suppose that `stats` over some files writes the text of a statistics file. Suppose that one of these files, `stats_file`, has exactly this
/// text. Then `plan --stats` with this file prints what `plan` prints at the accuracy of `stats`. Or both calls are refused for the same cause.
/// This holds for each budget, each shape and each limit of memory.
pub fn files_plan_as_their_tables()
    ensures { (schema_file query_file stats_file : List ℕ) (accuracy : ℕ) (terms : PlanTerms) (files : Files) (written : RunOutcome) (text : List ℕ)
        → 0 < accuracy → accuracy ≤ most_accuracy
        → command_run (over_query None schema_file query_file (query_tasks.WriteStats accuracy)) files ≡ Ok written → out_text written ≡ Some text
        → read file.Stats most_file stats_file files ≡ Ok text
        → mapped both_texts (command_run (over_query None schema_file query_file (query_tasks.PlanFromStats stats_file terms)) files)
        ≡ mapped both_texts (command_run (over_query None schema_file query_file (query_tasks.Plan (plan_of_columns terms accuracy))) files) }
{}
