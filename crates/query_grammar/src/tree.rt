//! The syntax tree of a query text. Names, numbers and texts are tokens of the query text.
use base_io::{Boxed, Seq};
use ll_grammars::Lexeme;

/// A reference to a column (SQL-92 6.4): the column's name, and the alias of its source, if one is written.
#[derive(Clone, Copy, Debug)]
pub struct ColumnNode {
    pub table: Option<Lexeme>,
    pub column: Lexeme,
}

/// A literal (SQL-92 5.3): a number with its sign, or a text.
#[derive(Clone, Copy, Debug)]
pub enum LiteralNode {
    Number {
        sign: Option<Lexeme>,
        digits: Lexeme,
    },
    Text(Lexeme),
}

/// An operand of a test.
#[derive(Clone, Copy, Debug)]
pub enum OperandNode {
    Column(ColumnNode),
    Literal(LiteralNode),
}

/// How two operands are compared (SQL-92 8.2).
#[derive(Clone, Copy, Debug, PartialEq, Eq)]
pub enum Op {
    Eq,
    Ne,
    Lt,
    Le,
    Gt,
    Ge,
}

/// A predicate: a comparison (SQL-92 8.2), BETWEEN (8.3) or IN (8.4). `negated` says that NOT is written before
/// BETWEEN or IN.
#[derive(Debug, Drop)]
pub enum TestNode {
    Compare {
        left: OperandNode,
        op: Op,
        right: OperandNode,
    },
    Between {
        operand: OperandNode,
        negated: bool,
        low: OperandNode,
        high: OperandNode,
    },
    In {
        operand: OperandNode,
        negated: bool,
        values: Seq<LiteralNode>,
    },
}

/// A search condition (SQL-92 8.12). `And` and `Or` have two members or more, in the order of the text. Parentheses only group, and aren't
/// kept.
#[derive(Debug, Drop)]
pub enum CondNode {
    And(Seq<CondNode>),
    Or(Seq<CondNode>),
    Not(Boxed<CondNode>),
    Test(TestNode),
}

/// A source of rows (SQL-92 6.3): a table, and its alias, if one is written.
#[derive(Clone, Copy, Debug)]
pub struct SourceNode {
    pub table: Lexeme,
    pub alias: Option<Lexeme>,
}

/// A source that is joined, and the condition of the join (SQL-92 7.5).
#[derive(Debug, Drop)]
pub struct JoinedNode {
    pub source: SourceNode,
    pub on: CondNode,
}

/// An item between the commas of FROM (SQL-92 7.4): a source, and the sources that are joined to it, from left to right.
#[derive(Debug, Drop)]
pub struct FromItemNode {
    pub first: SourceNode,
    pub joins: Seq<JoinedNode>,
}

/// An output (SQL-92 7.9): all columns of the source with this alias, or a column with its new name, if one is written.
#[derive(Clone, Copy, Debug)]
pub enum OutNode {
    All(Lexeme),
    Column {
        column: ColumnNode,
        name: Option<Lexeme>,
    },
}

/// The outputs: all columns of all sources, or the listed outputs.
#[derive(Debug, Drop)]
pub enum OutsNode {
    All,
    Listed(Seq<OutNode>),
}

/// A query (SQL-92 7.9): its outputs, the items between the commas of FROM (`parts`), and the condition of WHERE (7.6).
#[derive(Debug, Drop)]
pub struct QueryNode {
    pub outs: OutsNode,
    pub parts: Seq<FromItemNode>,
    pub filter: Option<CondNode>,
}
