//! The FROM entries that are in scope for a condition or an output of a query text.
use base_io::Seq;
use schema_types::Kind;

/// The FROM entries from number `first` to number `end` - 1.
#[derive(Clone, Copy, Debug)]
pub struct Scope {
    pub first: usize,
    pub end: usize,
}

/// A FROM entry: its number, and the number of its table.
#[derive(Clone, Copy, Debug)]
pub struct Entry {
    pub number: usize,
    pub table: u32,
}

/// A column of a FROM entry: the entry's number, the column's number in its table, and its kind.
#[derive(Clone, Copy, Debug)]
pub struct EntryColumn {
    pub from: usize,
    pub column: u32,
    pub kind: Kind,
}

/// The entries in scope. `first_two` has the first two entries in scope of each table. These entries are enough to resolve a reference without an
/// alias.
#[derive(Drop)]
pub struct Visible {
    pub scope: Scope,
    pub first_two: Seq<Entry>,
}
