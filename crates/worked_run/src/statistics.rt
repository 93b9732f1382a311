//! How `stats`, `plan --stats` and `append` end over two small tables. Each contract is a theorem; the functions do nothing.
ghost use Rattle.std.specs.Prelude.{◌≡◌, Ok, None, Some, codes};
ghost use Rattle.base_io.specs.Files.{Files, file_of};
ghost use Rattle.safebound_laws.specs.FileCalls.{TookExactly};
ghost use Rattle.safebound_laws.specs.FilePlans.{PlanHolds};
ghost use Rattle.outcomes.specs.Reads.{mapped};
ghost use Rattle.outcomes.specs.declared.status.Status.TheVariants as status;
ghost use Rattle.prepared_runs.specs.Verdict.{verdict};
ghost use Rattle.safebound_laws.specs.Printed.{both_texts};
ghost use Rattle.safebound_top.specs.Call.{Call};
ghost use Rattle.safebound_top.specs.Headline.{Headline};
ghost use Rattle.safebound_top.specs.OutcomeTexts.{out_text};
ghost use Rattle.table_files.specs.Examples.{two_tables};
ghost use Rattle.worked_run.specs.Calls.{EachCallEnds};
ghost use Rattle.worked_run.specs.Meaning.{small_appended, small_stats_file};
ghost use Rattle.worked_run.specs.TwoCalls.{plan_call, stats_call};
ghost use Rattle.worked_run.specs.TwoTables.{append_words, from_file_words, grown_text, schema_text, small_files, stats_text, stats_words};

/// `stats schema.sql query.sql` writes the statistics file of both tables.
pub fn statistics_written()
    ensures verdict { verdict stats_words small_files ≡ Ok small_stats_file }
    ensures out { out_text small_stats_file ≡ Some stats_text }
    ensures call { EachCallEnds small_files stats_words status.Done None (Some stats_text) }
{}

/// `plan schema.sql query.sql --stats rs.stats`: if the file has the bytes that `stats` writes, the plan is the plan over the tables.
pub fn planned_from_a_file()
    ensures printed { mapped both_texts (verdict from_file_words small_files)
        ≡ Ok (Some (codes "scan R 6\nscan S 5\nlevel 1 S 5\nlevel 2 R 12\n"), None) }
    ensures call { EachCallEnds small_files from_file_words status.Done (Some (codes "scan R 6\nscan S 5\nlevel 1 S 5\nlevel 2 R 12\n")) None }
{}

/// `append schema.sql rs.stats R new.csv` writes the statistics file in which the rows 1 and 4 are added to R.
pub fn appended()
    ensures verdict { verdict append_words small_files ≡ Ok small_appended }
    ensures out { out_text small_appended ≡ Some grown_text }
    ensures call { EachCallEnds small_files append_words status.Done None (Some grown_text) }
{}

/// Only the bytes connect two calls. Suppose that a call of `stats` over the small tables ends in Done, and its `out` took the bytes of the
/// statistics file. Suppose that a call of `plan --stats`, over any files, ends in Done. Suppose that these files have the same schema, and the
/// statistics file among them has these bytes. Whatever query this call reads, its plan holds over the small tables.
pub fn plans_from_these_bytes_hold()
    ensures { (made planned : Call) (files : Files) → Headline made → made.words ≡ stats_words → made.status ≡ status.Done
        → made.store.files ≡ Some small_files → TookExactly made.out stats_text
        → Headline planned → planned.words ≡ from_file_words → planned.status ≡ status.Done → planned.store.files ≡ Some files
        → file_of files (codes "schema.sql") ≡ Some schema_text → file_of files (codes "rs.stats") ≡ Some stats_text
        → PlanHolds (stats_call made) (plan_call planned files) two_tables }
{}
