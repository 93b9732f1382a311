//! Plans a query by a join tree, from its database.
ghost use Rattle.std.specs.Prelude.{◌≡◌, ◌⊎◌, ◌≤◌, Err, IfOk};
ghost use Rattle.limits.specs.Profile.{most_rows};
ghost use Rattle.order_search.specs.declared.refusal.PlanError.TheVariants as error;
ghost use Rattle.sql_meaning.specs.Databases.{IsDatabaseOf};
ghost use Rattle.sql_meaning.specs.Tables.{tables_of};
ghost use Rattle.planning.specs.Bounds.{scan_bounds_of, set_bounds_of};
ghost use Rattle.plan_answers.specs.TreeAnswer.{tree_answer};
ghost use Rattle.join_steps.specs.Lists.{scans_of};
ghost use Rattle.bushy_join.specs.Trees.{IsTreePlanOf};

use bushy_planning::plan_tree_from;
use csv_tables::Database;
use limits::Accuracy;
use order_search::PlanError;
use planning::from_statistics;
use plans::BushyPlan;
use query_types::Query;
use std::alloc::Global;

/// Gathers the statistics of a query's tables once, and finds the join tree that is best by the bounds from these statistics. The plan has a bound in
/// rows for each scan and each inner node.
///
/// `accuracy` says how near compressed lists are to the degrees (SafeBound, SIGMOD 2023). The budget is at most 4,000,000 rows. The errors are the
/// same as in `plan_tree_from`.
pub fn plan_bushy(
    alloc: Global,
    query: &Query,
    db: &Database,
    accuracy: Accuracy,
    budget: u64,
) -> Result<BushyPlan, PlanError>
    requires database { IsDatabaseOf query.now db.now }
    requires budget { budget ≤ most_rows }
    ensures plan { (result ≡ Err error.NoMemory) ⊎ (result
        ≡ tree_answer (set_bounds_of query.now (tables_of db.now) accuracy) (scan_bounds_of query.now (tables_of db.now) accuracy) budget) }
    ensures never_under { IfOk result (IsTreePlanOf query.now (tables_of db.now) (scans_of query.now (tables_of db.now))) }
{
    let known = from_statistics(alloc, query, db, accuracy)?;
    plan_tree_from(alloc, &known, budget)
}
