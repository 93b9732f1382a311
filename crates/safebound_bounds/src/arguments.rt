//! The equalities and lists that a caller hands in. Row bounds and runs are the other arguments.

/// An equality between columns of two different entries.
#[repr(C)]
#[derive(Clone, Copy, Debug, PartialEq, Eq)]
pub struct Equality {
    pub left_entry: u32,
    pub left_column: u32,
    pub right_entry: u32,
    pub right_column: u32,
}

/// The value of `first` in a list without runs, for a column in which no row has a value.
pub const NO_VALUES: u64 = u64::MAX;

/// The list of an entry's column: `length` runs of the call's array of runs, from index `first` on.
#[repr(C)]
#[derive(Clone, Copy, Debug, PartialEq, Eq)]
pub struct ColumnList {
    pub entry: u32,
    pub column: u32,
    pub first: u64,
    pub length: u64,
}
