//! Plans a query by a join tree, from bounds.
ghost use Rattle.std.specs.Prelude.{◌≡◌, ◌⊎◌, ◌^◌, ◌≤◌, Err, length};
ghost use Rattle.limits.specs.Profile.{greatest_budget, most_entries};
ghost use Rattle.order_search.specs.declared.refusal.PlanError.TheVariants as error;
ghost use Rattle.plan_answers.specs.TreeAnswer.{tree_answer};

use bushy_plan::choose_bushy;
use order_search::PlanError;
use planning::QueryBounds;
use plans::BushyPlan;
use std::alloc::Global;

/// Finds the join tree that is best by the bounds in `known`. The plan has a bound in rows for each scan and each inner node.
///
/// The budget is at most 2^59 rows. Errors: `Budget` if the best tree costs more than the budget, `PastBits` if its cost doesn't fit into 128 bits,
/// and `NoMemory`. `tree_answer` says exactly when the result is `Budget`, and when it is `PastBits`.
pub fn plan_tree_from(
    alloc: Global,
    known: &QueryBounds,
    budget: u64,
) -> Result<BushyPlan, PlanError>
    requires some { 1 ≤ length known.now.scans }
    requires few { length known.now.scans ≤ most_entries }
    requires sets { length known.now.sets ≡ 2 ^ length known.now.scans }
    requires budget { budget ≤ greatest_budget }
    ensures { (result ≡ Err error.NoMemory) ⊎ (result ≡ tree_answer known.now.sets known.now.scans budget) }
{
    choose_bushy(alloc, &known.sets, &known.scans, budget)
}
