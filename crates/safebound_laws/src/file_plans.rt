//! Laws about a plan from a statistics file that this program wrote. A call does nothing; its contract is the law.
ghost use Rattle.std.specs.Prelude.{ℕ, List};
ghost use Rattle.plan_nearness.specs.Nearness.{FiltersNoEntry};
ghost use Rattle.query_types.specs.declared.types.Query.{Query};
ghost use Rattle.schema_types.specs.declared.types.Schema.{Schema};
ghost use Rattle.safebound_top.specs.Promise.{AsksQuery};
ghost use Rattle.safebound_laws.specs.FileCalls.{AppendCall, EachReadsTheBytesBefore, PlanCall, PlannedFrom, StatsCall, WroteStats, last_bytes};
ghost use Rattle.safebound_laws.specs.FilePlans.{GrownPlanHolds, PlanHolds, PlanIsNear, PlanIsOfTables};

/// `stats`, then `plan --stats`. Suppose that the statistics file of the second call has the bytes that the first call wrote. Suppose that both
/// calls read the same schema. Take any query that the second call accepts, over the rows that `stats` read. Then no scan and no level has more
/// rows than the plan text says.
pub fn plans_from_written_files_hold()
    ensures { (schema : Schema) (bytes : List ℕ) (made : StatsCall) (planned : PlanCall)
        → WroteStats made schema bytes → PlannedFrom schema bytes planned → PlanHolds made planned schema }
{}

/// `stats`, then `append` any number of times, then `plan --stats`. Suppose that the statistics file of each call has the bytes that the call
/// before wrote. Suppose that all calls read the same schema. Take any query that the last call accepts, over the rows that `stats` read with
/// all new rows after them. Then no scan and no level has more rows than the plan text says.
pub fn plans_from_appended_files_hold()
    ensures { (schema : Schema) (bytes : List ℕ) (made : StatsCall) (appends : List AppendCall) (planned : PlanCall)
        → WroteStats made schema bytes → EachReadsTheBytesBefore schema bytes appends → PlannedFrom schema (last_bytes bytes appends) planned
        → GrownPlanHolds made appends planned schema }
{}

/// `stats`, then `plan --stats`, under the conditions of `plans_from_written_files_hold`: the plan is the same as the plan from the tables.
/// Take any query that the later call accepts. `plan` makes this plan from the rows that `stats` read, at the accuracy of `stats` and within
/// the later call's budget.
pub fn plans_from_written_files_are_those_of_the_tables()
    ensures { (schema : Schema) (bytes : List ℕ) (made : StatsCall) (planned : PlanCall)
        → WroteStats made schema bytes → PlannedFrom schema bytes planned → PlanIsOfTables made planned schema }
{}

/// `stats`, then `plan --stats`, under the conditions of `plans_from_written_files_hold`. If the query has no own conjuncts, the bounds of the plan
/// are near the bounds without compression. At accuracy K, K^n times the printed bound of a level of n entries is at most (K + 1)^n times its bound
/// without compression. At the usual accuracy, 1, the printed bound is at most 2^n times the bound without compression.
pub fn plans_from_written_files_are_near()
    ensures { (schema : Schema) (bytes : List ℕ) (made : StatsCall) (planned : PlanCall)
        → WroteStats made schema bytes → PlannedFrom schema bytes planned
        → ((query : Query) → AsksQuery planned.files planned.query_file schema query → FiltersNoEntry query) → PlanIsNear made planned schema }
{}
