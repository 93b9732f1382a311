//! What a schema declares.
use base_io::{Name, Seq};

/// The kind of a column's values: signed 64-bit numbers, or texts with their greatest number of characters.
#[derive(Clone, Copy, Debug, PartialEq, Eq)]
pub enum Kind {
    Int,
    Text(u32),
}

/// A declared column. Its name is folded as SQL-92 folds a regular identifier (section 5.2).
#[derive(Debug, Drop)]
pub struct Column {
    pub name: Name,
    pub kind: Kind,
}

/// A declared reference: the columns that refer, the table that they refer to, and the target columns in that table. Tables and columns are given by
/// their numbers, from 0.
#[derive(Debug, Drop)]
pub struct Reference {
    pub columns: Seq<u32>,
    pub table: u32,
    pub targets: Seq<u32>,
}

/// A declared table. A key is a list of the numbers of its columns.
#[derive(Debug, Drop)]
pub struct Table {
    pub name: Name,
    pub columns: Seq<Column>,
    pub keys: Seq<Seq<u32>>,
    pub references: Seq<Reference>,
}

/// The tables of a schema, in the order of the text.
#[derive(Debug, Drop)]
pub struct Schema {
    pub tables: Seq<Table>,
}
