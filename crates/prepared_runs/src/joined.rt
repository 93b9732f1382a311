//! Runs the joins of a plan, in memory that was taken before.
ghost use Rattle.std.specs.Prelude.{◌≡◌};
ghost use Rattle.sql_meaning.specs.Databases.{IsDatabaseOf};
ghost use Rattle.join_steps.specs.Lists.{lists_of};
ghost use Rattle.prepared_runs.specs.KeptBuffers.{IsJoined, joined_bytes};
ghost use Rattle.prepared_runs.specs.PreparedQuery.{CanJoin, room_and_list_bytes};

use crate::scans::Joins;
use crate::shapes::Room;
use bushy_join::execute_bushy;
use csv_tables::Database;
use plans::BushyPlan;
use query_types::Query;
use tree_rows::BushyResult;

/// A plan whose joins are done, with the rows of the nodes of its tree.
#[derive(Drop)]
pub struct Joined {
    pub plan: BushyPlan,
    pub done: BushyResult,
}

/// Lists the rows of each node of a plan's join tree. `join` takes no memory and can't fail. Afterwards the buffers hold as many bytes as before.
pub fn join(joins: Joins, query: &Query, db: &Database) -> Joined
    requires database { IsDatabaseOf query.now db.now }
    requires joins { CanJoin query.now db.now joins }
    ensures plan { result.plan ≡ joins.room.plan }
    ensures joined { IsJoined query.now db.now (lists_of joins.lists.items) result }
    ensures bytes { joined_bytes result ≡ room_and_list_bytes joins }
{
    let Joins { lists, room } = joins;
    let Room { plan, reserved } = room;
    let done = execute_bushy(reserved, lists, &plan, query, db);
    Joined { plan, done }
}
