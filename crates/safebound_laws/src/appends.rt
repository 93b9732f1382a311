//! Laws about the verdicts of `append`. A call does nothing; its contract is the law.
ghost use Rattle.std.specs.Prelude.{◌≡◌, ℕ, List, Ok, Some};
ghost use Rattle.base_io.specs.Files.{Files};
ghost use Rattle.safebound_words.specs.Answer.{command_of};
ghost use Rattle.safebound_words.specs.Commands.{append_command};
ghost use Rattle.prepared_runs.specs.RunOutcome.{RunOutcome};
ghost use Rattle.prepared_runs.specs.Verdict.{verdict};
ghost use Rattle.safebound_laws.specs.Appends.{GrowsByFile, NoBoundIsTooLowAfter, StandsAfter};

/// Suppose that `append` writes a file. Then `append` read the schema, the statistics file and the new rows from the files that its words
/// name. The file that it writes is this statistics file after the new rows are counted.
pub fn appended_files_are_read()
    ensures { (words : List (List ℕ)) (files : Files) (schema stats name rows : List ℕ) (outcome : RunOutcome)
        → command_of words ≡ Some (append_command schema (record { stats_file = stats; table = name; rows_file = rows })) → verdict words files ≡ Ok outcome
        → GrowsByFile files schema stats name rows outcome }
{}

/// Suppose that the statistics file that `append` read stands for the tables of a query. Then the file that `append` writes stands for these
/// tables with the new rows at the end of their table.
pub fn appended_files_stand()
    ensures { (files : Files) (schema stats name rows : List ℕ) (outcome : RunOutcome) (grows : GrowsByFile files schema stats name rows outcome)
        → StandsAfter grows.before grows.section.table grows.rows grows.after }
{}

/// Suppose that the statistics file that `append` read stands for the tables of a plan's query. Then no bound of a plan from the file that
/// `append` writes is too low for these tables with the new rows.
pub fn plans_after_an_append_are_never_under()
    ensures { (files : Files) (schema stats name rows : List ℕ) (outcome : RunOutcome) (grows : GrowsByFile files schema stats name rows outcome)
        → NoBoundIsTooLowAfter grows.before grows.section.table grows.rows grows.after }
{}
