//! Finds whether a condition names no entry, one entry or several entries.
ghost use Rattle.std.specs.Prelude.{◌≡◌, map};
ghost use Rattle.std.specs.List.{flat_map};
ghost use Rattle.join_graph.specs.Conjuncts.{column_of};
ghost use Rattle.query_types.specs.Named.{entries_named, entries_of_operand};
ghost use Rattle.join_graph.specs.Naming.{named_of, together};
ghost use Rattle.join_graph.specs.declared.naming.EntriesNamed.TheVariants as named;

use query_types::{ColumnRef, Cond, Operand};

/// Whether a condition names no entry, just one entry, or several entries.
#[derive(Clone, Copy)]
pub(crate) enum EntriesNamed {
    NoEntry,
    OneEntry(u8),
    Several,
}

fn together(left: EntriesNamed, right: EntriesNamed) -> EntriesNamed
    ensures { result ≡ together left right }
{
    match left {
        EntriesNamed::NoEntry => right,
        EntriesNamed::OneEntry(entry) => with_entry(entry, right),
        EntriesNamed::Several => left,
    }
}

fn with_entry(entry: u8, right: EntriesNamed) -> EntriesNamed
    ensures { result ≡ together (named.OneEntry entry) right }
{
    match right {
        EntriesNamed::OneEntry(other) => {
            if entry == other {
                right
            } else {
                EntriesNamed::Several
            }
        }
        EntriesNamed::NoEntry => EntriesNamed::OneEntry(entry),
        EntriesNamed::Several => EntriesNamed::Several,
    }
}

/// The operand's column, if the operand is a column.
pub(crate) fn column_of(operand: &Operand) -> Option<ColumnRef>
    ensures { result ≡ column_of operand.now }
{
    match operand {
        Operand::Column(column) => Some(*column),
        Operand::Int(_) | Operand::Text(_) => None,
    }
}

fn named_by_operand(operand: &Operand) -> EntriesNamed
    ensures { result ≡ named_of (entries_of_operand operand.now) }
{
    match column_of(operand) {
        Some(column) => EntriesNamed::OneEntry(column.from),
        None => EntriesNamed::NoEntry,
    }
}

#[cycle(naming)]
fn named_by_all(members: &[Cond]) -> EntriesNamed
    ensures { result ≡ named_of (flat_map (λ inner. inner) (map entries_named members.now)) }
{
    let mut names = EntriesNamed::NoEntry;
    for member in members {
        names = together(names, named_by(member));
    }
    names
}

/// Whether a condition names no entry, just one entry, or several entries.
#[cycle(naming)]
pub(crate) fn named_by(cond: &Cond) -> EntriesNamed
    ensures { result ≡ named_of (entries_named cond.now) }
{
    match cond {
        Cond::And(members) => named_by_all(members.as_slice()),
        Cond::Or(members) => named_by_all(members.as_slice()),
        Cond::Not(member) => named_by(member.get()),
        Cond::Compare { left, right, .. } => {
            together(named_by_operand(left), named_by_operand(right))
        }
    }
}
