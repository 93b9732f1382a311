//! How `run` and `audit` end over two small tables. Each contract is a theorem on one call; the functions do nothing.
ghost use Rattle.std.specs.Prelude.{◌≡◌, Ok, Err, None, Some, codes};
ghost use Rattle.outcomes.specs.declared.refusal.Refusal.TheVariants as refusal;
ghost use Rattle.outcomes.specs.declared.status.Status.TheVariants as status;
ghost use Rattle.safebound_words.specs.declared.command.ListSource.TheVariants as sources;
ghost use Rattle.safebound_words.specs.declared.command.OutText.TheVariants as out_text;
ghost use Rattle.prepared_runs.specs.RunOutcome.{Planned};
ghost use Rattle.safebound_top.specs.Texts.{out_text_of, plan_text};
ghost use Rattle.prepared_runs.specs.Verdict.{verdict};
ghost use Rattle.worked_run.specs.Calls.{EachCallEnds};
ghost use Rattle.worked_run.specs.TwoTables.{audit_words, counted_words, limited_words, small_memory_words, reduced_words, run_words, small_files, small_budget_words, tree_words};
ghost use Rattle.worked_run.specs.Meaning.{two_tables_reduced, two_tables_run, two_tables_tree};

/// `run schema.sql query.sql`: six of the 30 pairs of rows are joined. Both orders cost 12, the bound of the join of both tables. The
/// order S, R is chosen, since the sum of its bounds is smaller.
pub fn joined()
    ensures verdict { verdict run_words small_files ≡ Ok (Planned (two_tables_run out_text.Rows None)) }
    ensures notes { plan_text (two_tables_run out_text.Rows None) ≡ codes "scan R 6\nscan S 5\nlevel 1 S 5\nlevel 2 R 12\n" }
    ensures out { out_text_of (two_tables_run out_text.Rows None) ≡ Some (codes "X\r\n1\r\n1\r\n1\r\n1\r\n1\r\n1\r\n") }
    ensures call { EachCallEnds small_files run_words status.Done (Some (codes "scan R 6\nscan S 5\nlevel 1 S 5\nlevel 2 R 12\n"))
        (Some (codes "X\r\n1\r\n1\r\n1\r\n1\r\n1\r\n1\r\n")) }
{}

/// `audit schema.sql query.sql`: level 1 has 5 rows, and its bound is 5. Level 2 has 6 rows, and its bound is 12.
pub fn audited()
    ensures verdict { verdict audit_words small_files ≡ Ok (Planned (two_tables_run out_text.Audit None)) }
    ensures out { out_text_of (two_tables_run out_text.Audit None) ≡ Some (codes "level 1 S 5 5\nlevel 2 R 12 6\n") }
    ensures call { EachCallEnds small_files audit_words status.Done (Some (codes "scan R 6\nscan S 5\nlevel 1 S 5\nlevel 2 R 12\n"))
        (Some (codes "level 1 S 5 5\nlevel 2 R 12 6\n")) }
{}

/// `audit schema.sql query.sql --bushy`: the only inner node joins R and S. It has 6 rows, half of its bound.
pub fn audited_as_a_tree()
    ensures verdict { verdict tree_words small_files ≡ Ok (Planned (two_tables_tree out_text.Audit None)) }
    ensures out { out_text_of (two_tables_tree out_text.Audit None) ≡ Some (codes "node 2 0 1 12 6\n") }
    ensures call { EachCallEnds small_files tree_words status.Done (Some (codes "scan R 6\nscan S 5\nnode 2 0 1 12\n")) (Some (codes "node 2 0 1 12 6\n")) }
{}

/// `run schema.sql query.sql --budget 11`: the query is refused, since no order costs less than 12.
pub fn refused()
    ensures verdict { verdict small_budget_words small_files ≡ Err (refusal.Budget 12) }
    ensures call { EachCallEnds small_files small_budget_words (status.Refused (refusal.Budget 12)) (Some (codes "error budget 12\n")) None }
{}

/// `run schema.sql query.sql --memory 531`: the plan's buffers take exactly 531 bytes, and the last line of the plan's text says so.
pub fn joined_within_a_limit()
    ensures verdict { verdict limited_words small_files ≡ Ok (Planned (two_tables_run out_text.Rows (Some 531))) }
    ensures notes { plan_text (two_tables_run out_text.Rows (Some 531)) ≡ codes "scan R 6\nscan S 5\nlevel 1 S 5\nlevel 2 R 12\nmemory 531\n" }
    ensures call { EachCallEnds small_files limited_words status.Done (Some (codes "scan R 6\nscan S 5\nlevel 1 S 5\nlevel 2 R 12\nmemory 531\n"))
        (Some (codes "X\r\n1\r\n1\r\n1\r\n1\r\n1\r\n1\r\n")) }
{}

/// `run schema.sql query.sql --memory 530`: the query is refused, since the plan's buffers take one byte more.
pub fn above_its_limit()
    ensures verdict { verdict small_memory_words small_files ≡ Err (refusal.MemoryLimit 531) }
    ensures call { EachCallEnds small_files small_memory_words (status.Refused (refusal.MemoryLimit 531)) (Some (codes "error memory-limit 531\n")) None }
{}

/// `run schema.sql query.sql --reduce`: three rows of R and two of S have a partner. Both orders cost 6, and S, R has the smaller sum of bounds. Both
/// levels have as many rows as their bounds.
pub fn joined_over_reduced_scans()
    ensures verdict { verdict reduced_words small_files ≡ Ok (Planned (two_tables_reduced sources.Reduced)) }
    ensures notes { plan_text (two_tables_reduced sources.Reduced) ≡ codes "scan R 3\nscan S 2\nlevel 1 S 2\nlevel 2 R 6\n" }
    ensures out { out_text_of (two_tables_reduced sources.Reduced) ≡ Some (codes "X\r\n1\r\n1\r\n1\r\n1\r\n1\r\n1\r\n") }
    ensures call { EachCallEnds small_files reduced_words status.Done (Some (codes "scan R 3\nscan S 2\nlevel 1 S 2\nlevel 2 R 6\n"))
        (Some (codes "X\r\n1\r\n1\r\n1\r\n1\r\n1\r\n1\r\n")) }
{}

/// `run schema.sql query.sql --count`: two rows of S and three of R are left, and all six pairs of them satisfy the condition.
pub fn joined_by_counts()
    ensures verdict { verdict counted_words small_files ≡ Ok (Planned (two_tables_reduced sources.Counted)) }
    ensures notes { plan_text (two_tables_reduced sources.Counted) ≡ codes "scan R 3\nscan S 2\nlevel 1 S 2\nlevel 2 R 6\n" }
    ensures out { out_text_of (two_tables_reduced sources.Counted) ≡ Some (codes "X\r\n1\r\n1\r\n1\r\n1\r\n1\r\n1\r\n") }
    ensures call { EachCallEnds small_files counted_words status.Done (Some (codes "scan R 3\nscan S 2\nlevel 1 S 2\nlevel 2 R 6\n"))
        (Some (codes "X\r\n1\r\n1\r\n1\r\n1\r\n1\r\n1\r\n")) }
{}
