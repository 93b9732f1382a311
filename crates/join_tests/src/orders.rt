//! Reserves the memory of an order, and joins by the order. Both calls are those of the order's join tree.
ghost use Rattle.std.specs.Prelude.{◌≡◌, ◌+◌, ◌≤◌, ℕ, not, if◌then◌else◌, [], IfOk, length};
ghost use Rattle.limits.specs.Profile.{most_entries};
ghost use Rattle.plans.specs.LeftDeep.{IsPlan};
ghost use Rattle.plans.specs.Orders.{level_node as node_of_level, tree_of_order as tree_of};
ghost use Rattle.reserve_plan.specs.Memory.{buffers_bytes};
ghost use Rattle.sql_meaning.specs.Answers.{conjuncts_of};
ghost use Rattle.sql_meaning.specs.Databases.{IsDatabaseOf};
ghost use Rattle.sql_meaning.specs.Levels.{all_hold, row_in};
ghost use Rattle.sql_meaning.specs.Tables.{tables_of};
ghost use Rattle.join_steps.specs.Lists.{list_levels, lists_of, AreOfScans};
ghost use Rattle.join_steps.specs.Plans.{IsPlanOf};
ghost use Rattle.tree_rows.specs.Memory.{tree_reserved_bytes, tree_rooms_bytes};
ghost use Rattle.tree_rows.specs.Nodes.{node_at};
ghost use Rattle.tree_rows.specs.Rooms.{BoundsFitBuffers, HasTreeRooms};
ghost use Rattle.join_tests.specs.Examples.{t_r_s, HasLevels};

use crate::trees::{Failed, rows_of};
use crate::triangle::{database, query};
use base_io::{NoMemory, Seq};
use bushy_join::execute_bushy;
use csv_tables::Database;
use join_steps::{reserve_scans, scan_all};
use plans::{BushyPlan, Plan, level_node, tree_of_order};
use query_types::Query;
use row_buf::RowBuf;
use std::alloc::Global;
use std::test::Fail;
use tree_rows::{BushyReserved, BushyResult, reserve_bushy};

/// The join tree of an order, and the buffers for its joins. The buffers are empty.
#[derive(Drop)]
pub struct Reserved {
    pub tree: BushyPlan,
    pub buffers: BushyReserved,
}

/// Reserves all memory for the joins of an order, except for the lists of its entries. The buffers are those of the order's join tree, in which each
/// right child is a leaf: each level from 2 on gets room for as many rows as its bound. A level may have 20,000,000 rows, and the list of a right
/// child 4,000,000. `NoMemory` is the only error.
pub fn reserve(alloc: Global, plan: &Plan) -> Result<Reserved, NoMemory>
    requires plan { IsPlan (length plan.now.scans) plan.now }
    requires not_empty { 1 ≤ length plan.now.scans }
    requires few { length plan.now.scans ≤ most_entries }
    requires small { BoundsFitBuffers (tree_of plan.now) }
    ensures tree { IfOk result (λ reserved. reserved.tree ≡ tree_of plan.now) }
    ensures rooms { IfOk result (λ reserved. HasTreeRooms (tree_of plan.now) reserved.buffers) }
    ensures bytes { IfOk result (λ reserved. tree_reserved_bytes reserved.buffers ≡ tree_rooms_bytes (tree_of plan.now)) }
{
    let tree = tree_of_order(alloc, plan)?;
    let buffers = reserve_bushy(alloc, &tree)?;
    Ok(Reserved { tree, buffers })
}

/// Joins lists of scanned rows in the order of the plan, one list for each FROM entry, in the buffers that `reserve` made for the plan. For each k
/// from 1 to the number of entries, level k has exactly the choices, of one row from the list of each of the first k entries of the order, that
/// satisfy every conjunct which names only these entries. Its rows are those of its node in the order's join tree, in lexicographic order. There is
/// one exception: if a condition that names no entry fails, such as 1 = 2, then level 1 has no row, and its node, a leaf, may have rows.
///
/// The call takes no memory and can't fail, and the bytes of all buffers together don't change. Only the contract uses `plan`; the code doesn't read
/// it.
pub fn execute(
    reserved: Reserved,
    lists: Vec<RowBuf<u32>>,
    plan: &Plan,
    query: &Query,
    db: &Database,
) -> BushyResult
    requires database { IsDatabaseOf query.now db.now }
    requires lists { AreOfScans query.now (tables_of db.now) (lists_of lists.items) }
    requires plan { IsPlanOf query.now (tables_of db.now) (lists_of lists.items) plan.now }
    requires tree { reserved.tree ≡ tree_of plan.now }
    requires rooms { HasTreeRooms (tree_of plan.now) reserved.buffers }
    ensures levels { HasLevels (length query.now.from) plan.now.order result.nodes }
    ensures first { list_levels query.now (tables_of db.now) (lists_of lists.items) plan.now.order 1
        ≡ (if not (all_hold (conjuncts_of query.now (tables_of db.now)) [] (row_in [] [])) then []
        else (node_at result.nodes (node_of_level (length query.now.from) plan.now.order 1)).rows) }
    ensures rows { (k : ℕ) → 2 ≤ k → k ≤ length query.now.from
        → (node_at result.nodes (node_of_level (length query.now.from) plan.now.order k)).rows
        ≡ list_levels query.now (tables_of db.now) (lists_of lists.items) plan.now.order k }
    ensures bytes { result.bytes ≡ buffers_bytes lists + tree_reserved_bytes reserved.buffers }
{
    let Reserved { tree, buffers } = reserved;
    execute_bushy(buffers, lists, &tree, query, db)
}

// The order T, R, S of the triangle.
fn order_of_three(alloc: Global) -> Result<Plan, NoMemory>
    ensures { IfOk result (λ plan. plan ≡ t_r_s) }
{
    Ok(Plan {
        order: Seq::from_vec(Vec::from_slice(alloc, &[2, 0, 1])?),
        scans: Seq::from_vec(Vec::from_slice(alloc, &[3, 3, 3])?),
        levels: Seq::from_vec(Vec::from_slice(alloc, &[3, 9, 27])?),
    })
}

// Joins the triangle in the order T, R, S.
fn joined(alloc: Global) -> Result<BushyResult, NoMemory>
    ensures { IfOk result (λ done. HasLevels 3 t_r_s.order done.nodes) }
{
    let query = query(alloc)?;
    let db = database(alloc)?;
    let plan = order_of_three(alloc)?;
    let mut lists = reserve_scans(alloc, &query, &db, plan.scans.as_slice())?;
    scan_all(&query, &db, lists.as_mut_slice());
    let reserved = reserve(alloc, &plan)?;
    Ok(execute(reserved, lists, &plan, &query, &db))
}

// The rows of level `k`, one after another. Each has the row numbers of R, S and T, and 9 for an entry that the level doesn't have.
fn rows_of_level(alloc: Global, done: &BushyResult, k: u8) -> Result<Vec<u32>, Failed>
    requires levels { HasLevels 3 t_r_s.order done.now.nodes }
    requires some { 1 ≤ k }
    requires within { k ≤ 3 }
{
    rows_of(alloc, done, level_node(3, 2, k), 3)
}

#[test]
fn a_triangle_is_joined_in_an_order(rt: HostRuntime) -> Result<(), Fail> {
    let alloc = rt.alloc();
    let done = joined(alloc)?;
    assert_eq!(rt;
        rows_of_level(alloc, &done, 1)?.as_slice(),
        [9, 9, 0, 9, 9, 1, 9, 9, 2].as_slice()
    );
    assert_eq!(rt;
        rows_of_level(alloc, &done, 2)?.as_slice(),
        [0, 9, 0, 2, 9, 0, 0, 9, 1, 2, 9, 1, 1, 9, 2].as_slice()
    );
    assert_eq!(rt;
        rows_of_level(alloc, &done, 3)?.as_slice(),
        [0, 0, 0, 2, 2, 0, 0, 1, 1, 1, 0, 2].as_slice()
    );
    Ok(())
}
