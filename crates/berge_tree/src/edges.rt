//! Equalities of columns.

/// A column of an entry: its FROM position, and the column's number in its table.
#[derive(Clone, Copy, Debug, PartialEq, Eq)]
pub struct Place {
    pub entry: u8,
    pub column: u32,
}

/// An equality of two columns.
#[derive(Clone, Copy, Debug, PartialEq, Eq)]
pub struct Edge {
    pub left: Place,
    pub right: Place,
}
