//! Computes the bounds of all sets of a query's entries, and chooses a plan by these bounds and those of the scans.
ghost use Rattle.std.specs.Prelude.{◌≡◌, ◌⊎◌, ◌^◌, ◌<◌, ◌≤◌, ℕ, Err, IfOk, length};
ghost use Rattle.limits.specs.Profile.{most_budget, most_entries};
ghost use Rattle.order_search.specs.declared.refusal.PlanError.TheVariants as error;
ghost use Rattle.plan_answers.specs.PlanAnswer.{plan_answer};
ghost use Rattle.set_bounds.specs.AllSets.{bounds_in_sets as told_in_sets};
ghost use Rattle.set_bounds.specs.Parts.{DependsOnPartsOnly};

use base_io::{NoMemory, Seq};
use join_graph::Parts;
use order_search::{PlanError, choose};
use plans::Plan;
use set_bounds::{EntryListsBySet, bounds_in_sets};
use std::alloc::Global;

/// A bound for each set of a query's entries, and a bound for each scan, in FROM order. Bounds are in rows. A set's index is the number whose bits
/// are the set's entries.
#[derive(Drop)]
pub struct QueryBounds {
    pub sets: Seq<u128>,
    pub scans: Seq<u64>,
}

/// The bounds of all sets of the entries, from each entry's row bound and the degree sequences of its joined columns. Row bounds and degree sequences
/// may depend on the set. The bounds of the scans are taken over unchanged.
///
/// In each turn, the set has trees, and each tree has a bound from the degree sequences of its columns. The trees' bounds are multiplied. The set's
/// bound is the least of these products (SafeBound, SIGMOD 2023; Degree Sequence Bound, ICDT 2023).
pub fn bounds_from<K: EntryListsBySet>(
    alloc: Global,
    parts: &Parts,
    lists: &K,
    scans: Seq<u64>,
) -> Result<QueryBounds, NoMemory>
    requires few { length scans ≤ most_entries }
    requires listed { (subset : ℕ) → subset < 2 ^ length scans → K.is_listed lists.now parts.now.equalities subset }
    requires depends_on_parts { DependsOnPartsOnly (K.known lists.now) parts.now.equalities }
    ensures sets { IfOk result (λ known. known.sets ≡ told_in_sets (K.known lists.now) parts.now.equalities (length scans)) }
    ensures scans { IfOk result (λ known. known.scans ≡ scans) }
{
    let sets = bounds_in_sets(alloc, parts, lists, scans.len() as u8)?;
    Ok(QueryBounds { sets, scans })
}

/// The best order of the entries by these bounds, with the bounds of its scans and levels. The error says why no order is within the budget. All
/// numbers are in rows, and the budget is at most 20,000,000.
///
/// The error is `Budget` or `PastBits` exactly if `plan_answer` says so, and `NoMemory` if memory runs out.
pub fn plan_from(alloc: Global, known: &QueryBounds, budget: u64) -> Result<Plan, PlanError>
    requires some { 1 ≤ length known.now.scans }
    requires few { length known.now.scans ≤ most_entries }
    requires sets { length known.now.sets ≡ 2 ^ length known.now.scans }
    requires budget { budget ≤ most_budget }
    ensures { (result ≡ Err error.NoMemory) ⊎ (result ≡ plan_answer known.now.sets known.now.scans budget) }
{
    choose(alloc, &known.sets, &known.scans, budget)
}
