//! The contents of a file of statistics, as a value.
use base_io::{Name, Seq};
use piece_math::Pieces;

/// A value of a column.
#[derive(Debug, Drop)]
pub enum Datum {
    Int(i64),
    Text(Name),
}

/// The conditional statistics of a joined column by the values of a filter column (SafeBound, sections 3.3 and 3.4): the degree list of all rows, the
/// list of each frequent value, one list for all other values, and a histogram. The histogram is a binary tree over ranges of values, with a list for
/// each node. The cuts are the values at which its leaves begin. Columns are given by their positions in the table, from 0.
#[derive(Debug, Drop)]
pub struct PairStats {
    pub filter: u32,
    pub joined: u32,
    pub whole: Pieces,
    pub frequent: Seq<(Datum, Pieces)>,
    pub rest: Pieces,
    pub cuts: Seq<Datum>,
    pub nodes: Seq<Pieces>,
}

/// The statistics of a table: its number of rows, and its pairs. `table` is its position in the schema, from 0.
#[derive(Debug, Drop)]
pub struct TableStats {
    pub table: u32,
    pub rows: u32,
    pub pairs: Seq<PairStats>,
}

/// The statistics of tables, compressed at this accuracy.
#[derive(Debug, Drop)]
pub struct StatsFile {
    pub accuracy: u8,
    pub tables: Seq<TableStats>,
}

/// Why the bytes aren't a statistics file. Lines are counted from 1.
#[derive(Clone, Copy, Debug, PartialEq, Eq)]
pub enum StatsError {
    /// No text of the grammar has this line after the lines before it, or the text ends too early.
    Syntax { line: u32 },
    /// A rule on the values is broken in this line.
    Rule { line: u32 },
    NoMemory,
}
