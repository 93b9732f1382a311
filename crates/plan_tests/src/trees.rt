//! The best join tree over given bounds.
use crate::choosing::{Fail, number_of_sets};
use base_io::Seq;
use bushy_plan::choose_bushy;
use limits::{MOST_ENTRIES, MOST_ROWS};
use order_search::PlanError;
use plans::{BushyPlan, Join};
use std::alloc::Global;

// The best tree over these bounds, if each entry's scan has two rows.
fn best_tree(
    alloc: Global,
    count: usize,
    bounds: Vec<u128>,
    budget: u64,
) -> Result<BushyPlan, Fail> {
    if count == 0 || count > MOST_ENTRIES || budget > MOST_ROWS as u64 {
        return Err(Fail::InputOrMemory);
    }
    if bounds.len() != number_of_sets(count) {
        return Err(Fail::InputOrMemory);
    }
    let scans = Seq::from_vec(vec![in alloc; 2; count]?);
    let plan = choose_bushy(alloc, &Seq::from_vec(bounds), &scans, budget)?;
    Ok(plan)
}

// The number of entries, a bound for each set of them, a budget, and the joins and the cost of the best tree.
#[derive(Clone, Copy)]
struct TreeCase<'a> {
    count: usize,
    bounds: &'a [u128],
    budget: u64,
    joins: &'a [(u8, u8, u64)],
    cost: u64,
}

fn are_joins(joins: &[Join], wanted: &[(u8, u8, u64)]) -> bool {
    joins.len() == wanted.len()
        && joins.iter().zip(wanted).all(|(join, want)| (join.left, join.right, join.bound) == *want)
}

fn is_chosen(alloc: Global, choice: &TreeCase<'_>) -> Result<bool, Fail> {
    let bounds = Vec::from_slice(alloc, choice.bounds)?;
    let plan = best_tree(alloc, choice.count, bounds, choice.budget)?;
    Ok(plan.cost == choice.cost && are_joins(plan.joins.as_slice(), choice.joins))
}

const TREE_CASES: [TreeCase<'static>; 5] = [
    TreeCase {
        count: 2,
        bounds: &[1, 6, 5, 12],
        budget: 12,
        joins: &[(0, 1, 12)],
        cost: 12,
    },
    // three trees are equally good; the first has entry 0 on the left
    TreeCase {
        count: 3,
        bounds: &[1, 3, 3, 5, 3, 5, 5, 9],
        budget: 9,
        joins: &[(1, 2, 5), (0, 3, 9)],
        cost: 9,
    },
    TreeCase {
        count: 1,
        bounds: &[9, 7],
        budget: 7,
        joins: &[],
        cost: 7,
    },
    // The bounds are how many rows the join of each set of entries has in this query:
    // SELECT C.N FROM C, P, Q, R, S WHERE C.A = P.X AND C.B = Q.X AND C.D = R.X AND C.E = S.X.
    // Each of P, Q, R and S has X = 7 three times and X = 8 once. C has a row with 8 in all four joined columns. It has four more rows, one for each
    // of these columns. In that column the row has a value that P, Q, R and S don't have; in the other columns it has 7. So the join of all five
    // entries has one row, but the join of C with three others has 28. Each left-deep order has a level of four entries. The tree
    // (((C, P), Q), (R, S)) has no node of four entries.
    TreeCase {
        count: 5,
        bounds: &[
            1, 5, 4, 10, 4, 10, 16, 19, 4, 10, 16, 19, 16, 19, 64, 28, 4, 10, 16, 19, 16, 19, 64,
            28, 16, 19, 64, 28, 64, 28, 256, 1,
        ],
        budget: 19,
        joins: &[(0, 1, 10), (5, 2, 19), (3, 4, 16), (6, 7, 1)],
        cost: 19,
    },
    // The least cost is 3, and the least sum of bounds at this cost is 8. The first split of the entries 1 to 4 has only entry 1 on the left. Its
    // right side costs 3. With the entries 1 and 2 on the left, the right side would cost 2.
    TreeCase {
        count: 5,
        bounds: &[
            1, 1, 3, 3, 1, 1, 2, 3, 2, 3, 3, 2, 2, 1, 2, 3, 2, 3, 3, 2, 1, 3, 3, 1, 2, 1, 2, 3, 3,
            3, 1, 3,
        ],
        budget: 3,
        joins: &[(2, 4, 1), (5, 3, 3), (1, 6, 1), (0, 7, 3)],
        cost: 3,
    },
];

#[test]
fn the_best_trees(rt: HostRuntime) -> Result<(), Fail> {
    for choice in &TREE_CASES {
        assert!(rt; is_chosen(rt.alloc(), choice)?);
    }
    Ok(())
}

// Why no tree is chosen over the bounds `front` followed by `last`, with a budget of six rows.
fn refusal(
    alloc: Global,
    count: usize,
    front: &[u128],
    last: u128,
) -> Result<Option<PlanError>, Fail> {
    let mut bounds = Vec::from_slice(alloc, front)?;
    bounds.push(last)?;
    match best_tree(alloc, count, bounds, 6) {
        Err(Fail::NoTree(error)) => Ok(Some(error)),
        _ => Ok(None),
    }
}

#[test]
fn no_tree_within_the_budget_or_128_bits(rt: HostRuntime) -> Result<(), Fail> {
    let top = u128::MAX;
    let past = refusal(rt.alloc(), 3, &[1, 2, 2, 3, 2, 3, 3], top)?;
    assert_eq!(rt; past, Some(PlanError::PastBits));
    let dear = refusal(rt.alloc(), 2, &[1, 2, 2], top - 1)?;
    assert_eq!(rt; dear, Some(PlanError::Budget { least: top - 1 }));
    Ok(())
}
