//! Values that borrow their texts, and how they compare.
ghost use Rattle.std.specs.Prelude.{◌≡◌};
ghost use Rattle.csv_tables.specs.Values.{value_cmp};
ghost use Rattle.sql_meaning.specs.Conditions.{compares};
ghost use Rattle.sql_meaning.specs.ValueRefs.{value_of_ref};

use csv_tables::compare_texts;
use query_types::Op;
use std::cmp::Ordering;

/// A number, or a borrowed text.
#[derive(Clone, Copy)]
pub enum ValueRef<'a> {
    Int(i64),
    Text(&'a str),
}

/// Whether value `a` is less than, equal to or greater than `b`.
pub(crate) fn compare_values(a: ValueRef, b: ValueRef) -> Ordering
    ensures { result ≡ value_cmp (value_of_ref a.entry) (value_of_ref b.entry) }
{
    match (a, b) {
        (ValueRef::Int(a), ValueRef::Int(b)) => a.cmp(&b),
        (ValueRef::Text(a), ValueRef::Text(b)) => compare_texts(a, b),
        (ValueRef::Int(_), ValueRef::Text(_)) => Ordering::Less,
        (ValueRef::Text(_), ValueRef::Int(_)) => Ordering::Greater,
    }
}

/// Whether a comparison holds for two values whose order is `order`.
pub(crate) fn compares_as(op: Op, order: Ordering) -> bool
    ensures { result ≡ compares op order }
{
    match op {
        Op::Eq => order.is_eq(),
        Op::Ne => order.is_ne(),
        Op::Lt => order.is_lt(),
        Op::Le => order.is_le(),
        Op::Gt => order.is_gt(),
        Op::Ge => order.is_ge(),
    }
}
