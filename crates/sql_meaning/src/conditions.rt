//! When a condition holds.
ghost use Rattle.std.specs.Prelude.{◌≡◌, length, slice_index};
ghost use Rattle.sql_meaning.specs.Conditions.{comparison_holds, cond_holds};
ghost use Rattle.query_types.specs.Named.{entries_named, entries_of_operand};
ghost use Rattle.query_types.specs.Typing.{Compares};
ghost use Rattle.sql_meaning.specs.Databases.{AreTables, HaveRows, IsWellTyped, IsColumnOfKind};
ghost use Rattle.sql_meaning.specs.Tables.{tables_of};

use crate::columns::value_of_operand;
use crate::values::{compare_values, compares_as};
use csv_tables::Database;
use query_types::{Cond, Op, Operand};

// Whether a comparison of two operands holds, if the entries have these rows.
fn comparison_holds(op: Op, left: &Operand, right: &Operand, db: &Database, rows: &[u32]) -> bool
    requires tables { AreTables db.now }
    requires well_typed { Compares (IsColumnOfKind db.now) left.now right.now }
    requires places { length rows.now ≡ length db.now.slots }
    requires left_row { HaveRows db.now rows.now (entries_of_operand left.now) }
    requires right_row { HaveRows db.now rows.now (entries_of_operand right.now) }
    ensures { result ≡ comparison_holds (tables_of db.now) (slice_index rows.now) op left.now right.now }
{
    let left = value_of_operand(left, db, rows);
    let right = value_of_operand(right, db, rows);
    compares_as(op, compare_values(left, right))
}

/// Whether a condition holds. `rows[e]` is the number of the row that FROM entry e has. The test allocates no memory. Its recursion is as deep as
/// the condition.
pub fn holds(cond: &Cond, db: &Database, rows: &[u32]) -> bool
    requires tables { AreTables db.now }
    requires well_typed { IsWellTyped db.now cond.now }
    requires places { length rows.now ≡ length db.now.slots }
    requires rows { HaveRows db.now rows.now (entries_named cond.now) }
    ensures { result ≡ cond_holds (tables_of db.now) (slice_index rows.now) cond.now }
{
    match cond {
        Cond::And(all) => {
            'all: for member in all.as_slice() {
                if !holds(member, db, rows) {
                    return false;
                }
            }
            true
        }
        Cond::Or(any) => {
            'any: for member in any.as_slice() {
                if holds(member, db, rows) {
                    return true;
                }
            }
            false
        }
        Cond::Not(inner) => !holds(inner.get(), db, rows),
        Cond::Compare { op, left, right } => comparison_holds(*op, left, right, db, rows),
    }
}
