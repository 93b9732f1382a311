//! Laws that follow from the headline and the verdict. A call does nothing; its contract is the law.
ghost use Rattle.std.specs.Prelude.{◌≡◌, ◌≢◌, ℕ, List, Option, Ok, Some};
ghost use Rattle.base_io.specs.Files.{Files};
ghost use Rattle.outcomes.specs.declared.names.FileId.{FileId};
ghost use Rattle.outcomes.specs.declared.refusal.Refusal.TheVariants as refusal;
ghost use Rattle.outcomes.specs.declared.status.Status.TheVariants as status;
ghost use Rattle.plans.specs.Orders.{order_of_tree};
ghost use Rattle.plan_nearness.specs.Nearness.{FiltersNoEntry, LevelsAreNear, NodesAreNear};
ghost use Rattle.prepared_runs.specs.AcceptedQuery.{AcceptedQuery, tables};
ghost use Rattle.safebound_words.specs.Commands.{over_query};
ghost use Rattle.safebound_words.specs.declared.command.QueryTask.TheVariants as query_tasks;
ghost use Rattle.safebound_top.specs.Call.{Call};
ghost use Rattle.safebound_top.specs.Headline.{Headline};
ghost use Rattle.prepared_runs.specs.RunOutcome.{Planned};
ghost use Rattle.safebound_top.specs.Promise.{Promise};
ghost use Rattle.prepared_runs.specs.Shops.{demo_number_of, shop_store};
ghost use Rattle.prepared_runs.specs.Verdict.{command_stage, verdict};
ghost use Rattle.safebound_words.specs.declared.command.ListSource.TheVariants as sources;
ghost use Rattle.safebound_words.specs.declared.command.PlanWork.{PlanWork};
ghost use Rattle.safebound_words.specs.declared.command.Shape.TheVariants as shapes;

/// If the headline holds for a call, then the promise of `run` holds for the call too. The promise names no stage of the program.
pub fn the_headline_keeps_the_promise()
    ensures { (call : Call) → Headline call → Promise call }
{}

/// `demo` never ends with a read fault or an absent file. It reads only the files of its shop, which are in memory, and these reads never fail.
pub fn demo_meets_no_read_fault()
    ensures fault { (call : Call) (number : ℕ) → Headline call → demo_number_of call.words ≡ Some number → call.store ≡ shop_store number
        → (file : FileId) → call.status ≢ status.ReadFault file }
    ensures absent { (call : Call) (number : ℕ) → Headline call → demo_number_of call.words ≡ Some number → call.store ≡ shop_store number
        → (file : FileId) → call.status ≢ status.Refused (refusal.Missing file) }
{}

/// Printed bounds are near the bounds without compression. This needs a query without own conjuncts, and words without `--keys`, `--reduce` and
/// `--count`. Let a level or inner node have n entries. At accuracy K, K^n times its printed bound is at most (K + 1)^n times its bound without
/// compression.
pub fn printed_bounds_are_near()
    ensures levels { (words : List (List ℕ)) (files : Files) (shop : Option ℕ) (schema query : List ℕ) (task : PlanWork) (run : AcceptedQuery)
        → command_stage words ≡ Ok (over_query shop schema query (query_tasks.Plan task)) → verdict words files ≡ Ok (Planned run)
        → run.source ≡ sources.Columns → FiltersNoEntry run.query
        → run.shape ≡ shapes.Order → LevelsAreNear run.query (tables run) task.accuracy (order_of_tree run.plan) }
    ensures nodes { (words : List (List ℕ)) (files : Files) (shop : Option ℕ) (schema query : List ℕ) (task : PlanWork) (run : AcceptedQuery)
        → command_stage words ≡ Ok (over_query shop schema query (query_tasks.Plan task)) → verdict words files ≡ Ok (Planned run)
        → run.source ≡ sources.Columns → FiltersNoEntry run.query
        → run.shape ≡ shapes.Tree → NodesAreNear run.query (tables run) task.accuracy run.plan }
{}
