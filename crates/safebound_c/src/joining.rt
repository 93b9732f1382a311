//! The call that bounds the rows of outer joins, semi-joins and anti-joins.
ghost use Rattle.std.specs.Prelude.{◌≡◌, ℕ, [], length, IfErr, IfOk, Some};
ghost use Rattle.joined_tables.specs.Bounds.{IsWithin};
ghost use Rattle.joined_tables.specs.Tables.{Condition, Table, inner_join, joined};
ghost use Rattle.joined_tables.specs.declared.joins.Join.{Join};
ghost use Rattle.safebound_c.specs.Kinds.{IsJoinBound, IsKindCause, join_kind_of};
ghost use Rattle.safebound_c.specs.Status.{TellsAnswer, ok_status};

use crate::status::answer_status;
use joined_tables::{Join, joined_rows};
use safebound_lists::Refusal;

const LEFT: u64 = 1;

const RIGHT: u64 = 2;

const FULL: u64 = 3;

const SEMI: u64 = 4;

const ANTI: u64 = 5;

// The kind of join to which include/safebound.h gives this number.
fn join_of_kind(kind: u64) -> Option<Join>
    ensures { result ≡ join_kind_of kind }
{
    match kind {
        LEFT => Some(Join::Left),
        RIGHT => Some(Join::Right),
        FULL => Some(Join::Full),
        SEMI => Some(Join::Semi),
        ANTI => Some(Join::Anti),
        _ => None,
    }
}

// The most rows that a joined table can have. The inner join has at most `inner` rows, and the tables have at most `left` and `right` rows.
fn most_rows_of_kind(kind: u64, inner: u64, left: u64, right: u64) -> Result<u64, Refusal>
    ensures done { IfOk result (IsJoinBound kind inner left right) }
    ensures never_under { IfOk result (λ rows. (join : Join) → join_kind_of kind ≡ Some join
        → (is_true : Condition) (left_table right_table : Table)
        → IsWithin (length (inner_join is_true left_table right_table)) inner
        → IsWithin (length left_table.rows) left → IsWithin (length right_table.rows) right
        → IsWithin (length (joined join is_true left_table right_table)) rows) }
    ensures refused { IfErr result (IsKindCause kind) }
{
    match join_of_kind(kind) {
        Some(join) => Ok(joined_rows(join, inner, left, right)),
        None => Err(Refusal::JoinKind { given: kind }),
    }
}

/// Writes to `detail` how many rows an outer join, a semi-join or an anti-join of two tables has at most. If no join has the number `kind`, the
/// call is refused, and `detail` is then `kind`.
///
/// The bound is never too low. Let the inner join have at most `inner` rows, and the tables at most `left` and `right` rows. Then the joined
/// table has at most `detail` rows. As an argument and as the result, the number 2^64 - 1 says that no bound is known.
#[unsafe(no_mangle)]
pub extern "C" fn safebound_joined_rows(
    kind: u64,
    inner: u64,
    left: u64,
    right: u64,
    detail: &mut u64,
) -> u32
    ensures exact { TellsAnswer {A = ℕ} (IsJoinBound kind inner left right) (IsKindCause kind) [] [] detail.old result detail.new }
    ensures never_under { result ≡ ok_status → (join : Join) → join_kind_of kind ≡ Some join
        → (is_true : Condition) (left_table right_table : Table)
        → IsWithin (length (inner_join is_true left_table right_table)) inner
        → IsWithin (length left_table.rows) left → IsWithin (length right_table.rows) right
        → IsWithin (length (joined join is_true left_table right_table)) detail.new }
{
    answer_status(most_rows_of_kind(kind, inner, left, right), detail)
}
