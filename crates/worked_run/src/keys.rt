//! How `plan --keys` ends over a small table. The contract is the theorem; the function does nothing.
ghost use Rattle.std.specs.Prelude.{◌≡◌, Ok, None, Some, codes};
ghost use Rattle.outcomes.specs.Reads.{mapped};
ghost use Rattle.outcomes.specs.declared.status.Status.TheVariants as status;
ghost use Rattle.prepared_runs.specs.Verdict.{verdict};
ghost use Rattle.safebound_laws.specs.Printed.{both_texts};
ghost use Rattle.worked_run.specs.Calls.{EachCallEnds};
ghost use Rattle.worked_run.specs.OneTable.{keyed_words, workers_files};

/// `plan schema.sql query.sql --keys` over workers and their bosses. Only one boss is in region 3, and this boss has two workers. So the last bound
/// is 2. Without `--keys` it is 3, since another boss has three workers.
pub fn planned_by_keys()
    ensures printed { mapped both_texts (verdict keyed_words workers_files)
        ≡ Ok (Some (codes "scan E 5\nscan M 1\nlevel 1 M 1\nlevel 2 E 2\n"), None) }
    ensures call { EachCallEnds workers_files keyed_words status.Done (Some (codes "scan E 5\nscan M 1\nlevel 1 M 1\nlevel 2 E 2\n")) None }
{}
