//! A query, its conditions and its outputs.
use base_io::{Boxed, Name, Seq};
pub use query_grammar::Op;

/// A column of a FROM entry: the entry's number, and the column's number in its table, both from 0.
#[derive(Clone, Copy, Debug, PartialEq, Eq)]
pub struct ColumnRef {
    pub from: u8,
    pub column: u32,
}

/// An operand of a comparison.
#[derive(Debug, Drop)]
pub enum Operand {
    Column(ColumnRef),
    Int(i64),
    Text(Name),
}

/// A search condition (SQL-92 8.12).
#[derive(Debug, Drop)]
pub enum Cond {
    And(Seq<Cond>),
    Or(Seq<Cond>),
    Not(Boxed<Cond>),
    Compare {
        op: Op,
        left: Operand,
        right: Operand,
    },
}

/// A FROM entry (SQL-92 6.3): the number of its table in the schema, and its name in the query.
#[derive(Debug, Drop)]
pub struct Source {
    pub table: u32,
    pub alias: Name,
}

/// An output (SQL-92 7.9): a column and its name.
#[derive(Debug, Drop)]
pub struct Out {
    pub column: ColumnRef,
    pub name: Name,
}

/// A query: its FROM entries in text order, its conjuncts (conditions that must all hold), and its outputs.
#[derive(Debug, Drop)]
pub struct Query {
    pub from: Seq<Source>,
    pub conjuncts: Seq<Cond>,
    pub select: Seq<Out>,
}
