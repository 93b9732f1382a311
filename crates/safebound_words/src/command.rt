//! The values of a command: the text written to `out`, the source of bounds, and the shape of the plan.

use crate::word::Word;

/// Which text a run over tables writes to `out`.
#[derive(Clone, Copy, Debug, PartialEq, Eq)]
pub enum OutText {
    /// The rows of the query.
    Rows,
    /// The bound and the number of rows of each level, or of each inner node if the plan is a tree.
    Audit,
    /// No text: `out` isn't written.
    Nothing,
}

/// What the bounds of a plan are made from, and which rows are joined.
#[derive(Clone, Copy, Debug)]
pub enum ListSource {
    /// Bounds are made from statistics of whole columns, and whole scans are joined.
    Columns,
    /// Bounds are made from statistics of whole columns, and conditions are carried along references to keys. Whole scans are joined.
    Keyed,
    /// Bounds are made from reduced scans, and reduced scans are joined.
    Reduced,
    /// Bounds are made by counting choices of rows of reduced scans, and reduced scans are joined.
    Counted,
}

/// How a plan joins its entries.
#[derive(Clone, Copy, Debug)]
pub enum Shape {
    /// Along a left-deep order: each level joins one more entry.
    Order,
    /// Over a join tree: each inner node joins two nodes.
    Tree,
}

/// What a command says about a plan, for every source of bounds. `budget` is the greatest cost that the plan may have, in rows. `shape` says how
/// entries are joined. `memory` is the most bytes that the plan's buffers may take, if there is a limit.
#[derive(Clone, Copy, Debug)]
pub struct PlanTerms {
    pub budget: u64,
    pub shape: Shape,
    pub memory: Option<u64>,
}

/// How a query is planned over its tables. `terms` has the budget, the shape and the limit of memory. `accuracy` is the accuracy of compression.
/// `source` is the source of bounds, and `out` says which text is written.
#[derive(Clone, Copy, Debug)]
pub struct PlanWork {
    pub terms: PlanTerms,
    pub accuracy: u8,
    pub source: ListSource,
    pub out: OutText,
}

/// What is done with a query.
#[derive(Debug, Drop)]
pub enum QueryTask<'a> {
    /// The query is planned over its tables, and joined if a text goes to `out`.
    Plan(PlanWork),
    /// The statistics file of the query's tables is written, at an accuracy of compression from 1 to 64.
    WriteStats { accuracy: u8 },
    /// The query is planned from the statistics file of this name, and no table is read.
    PlanFromStats { file: Word<'a>, terms: PlanTerms },
}

/// Names of three things: a statistics file, a table, and a file with new rows of this table.
#[derive(Debug, Drop)]
pub struct NewRows<'a> {
    pub stats_file: Word<'a>,
    pub table: Word<'a>,
    pub rows_file: Word<'a>,
}

/// What is done with a schema.
#[derive(Debug, Drop)]
pub enum SchemaTask<'a> {
    /// The query in the file of this name is planned or run, or its statistics are written.
    Query { file: Word<'a>, work: QueryTask<'a> },
    /// New rows of a table are added to a statistics file.
    Append(NewRows<'a>),
}

/// The name of the schema file, and what is done. For `demo`, `shop` is the number of the generated example shop whose files are read.
#[derive(Debug, Drop)]
pub struct Command<'a> {
    pub schema_file: Word<'a>,
    pub schema_task: SchemaTask<'a>,
    pub shop: Option<u32>,
}

/// Why the words of a command line are refused.
#[derive(Clone, Copy, Debug, PartialEq, Eq)]
pub enum WordsError {
    /// The words fit no row of the table of commands (`specs/Table.antt`).
    Usage,
}
