//! Join trees: the best one of a query, and the rows of its nodes.
ghost use Rattle.std.specs.Prelude.{◌<◌, IfOk, length};
ghost use Rattle.std.specs.List.{AllByRecursion};
ghost use Rattle.sql_meaning.specs.Databases.{IsDatabaseOf};
ghost use Rattle.tree_rows.specs.Nodes.{node_at};
ghost use Rattle.join_tests.specs.Examples.{HasNodes};

use crate::leaves::reserve_leaves;
use crate::planned_trees::plan_bushy;
use crate::triangle::{database, query};
use base_io::NoMemory;
use bushy_join::execute_bushy;
use csv_tables::Database;
use join_steps::scan_all;
use limits::{Accuracy, MOST_ROWS};
use order_search::PlanError;
use plans::{BushyPlan, Join};
use query_types::Query;
use std::alloc::{AllocError, Global};
use tree_rows::{BushyResult, reserve_bushy};

#[derive(Debug, Drop)]
pub(crate) struct Failed;

impl From<NoMemory> for Failed {
    fn from(_: NoMemory) -> Self {
        Failed
    }
}

impl From<AllocError> for Failed {
    fn from(_: AllocError) -> Self {
        Failed
    }
}

impl From<PlanError> for Failed {
    fn from(_: PlanError) -> Self {
        Failed
    }
}

#[derive(Drop)]
struct JoinedTree {
    plan: BushyPlan,
    done: BushyResult,
}

// Joins the entries of a query by its best tree.
fn joined(alloc: Global, query: &Query, db: &Database) -> Result<JoinedTree, Failed>
    requires database { IsDatabaseOf query.now db.now }
    ensures { IfOk result (λ joined. HasNodes (length query.now.from) joined.done.nodes) }
{
    let plan = plan_bushy(alloc, query, db, Accuracy::of(1), MOST_ROWS as u64)?;
    let mut lists = reserve_leaves(alloc, &plan, query, db)?;
    let reserved = reserve_bushy(alloc, &plan)?;
    scan_all(query, db, lists.as_mut_slice());
    let done = execute_bushy(reserved, lists, &plan, query, db);
    Ok(JoinedTree { plan, done })
}

// The rows of a node, one after another. Each has the row number of each entry, and 9 for an entry that the node doesn't have.
pub(crate) fn rows_of(
    alloc: Global,
    done: &BushyResult,
    node: u8,
    entries: usize,
) -> Result<Vec<u32>, Failed>
    requires node { node < length done.now.nodes }
    requires within { AllByRecursion (λ entry. entry < entries) (node_at done.now.nodes node).entries }
{
    let mut rows = Vec::new(alloc);
    for i in 0..done.len(node) {
        let mut row = vec![in alloc; 9; entries]?;
        done.rows_of(node, i, row.as_mut_slice());
        rows.extend_from_slice(row.as_slice())?;
    }
    Ok(rows)
}

fn join(left: u8, right: u8, bound: u64) -> Join {
    Join { left, right, bound }
}

fn best_tree(alloc: Global) -> Result<JoinedTree, Failed>
    ensures { IfOk result (λ joined. HasNodes 3 joined.done.nodes) }
{
    let query = query(alloc)?;
    let db = database(alloc)?;
    joined(alloc, &query, &db)
}

#[test]
fn a_triangle_is_joined_by_its_best_tree(rt: HostRuntime) -> Result<(), Failed> {
    let alloc = rt.alloc();
    let JoinedTree { plan, done } = best_tree(alloc)?;
    assert_eq!(rt; plan.scans.as_slice(), [3, 3, 3].as_slice());
    assert_eq!(rt;
        plan.joins.as_slice(),
        [join(1, 2, 5), join(0, 3, 9)].as_slice()
    );
    assert_eq!(rt;
        rows_of(alloc, &done, 0, 3)?.as_slice(),
        [0, 9, 9, 1, 9, 9, 2, 9, 9].as_slice()
    );
    assert_eq!(rt;
        rows_of(alloc, &done, 3, 3)?.as_slice(),
        [9, 0, 0, 9, 0, 2, 9, 1, 1, 9, 2, 0, 9, 2, 2].as_slice()
    );
    assert_eq!(rt;
        rows_of(alloc, &done, 4, 3)?.as_slice(),
        [0, 0, 0, 0, 1, 1, 1, 0, 2, 2, 2, 0].as_slice()
    );
    Ok(())
}
