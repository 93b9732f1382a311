//! The syntax tree of a schema text. A name or a number is kept as its token, which says where it lies in the text.
use base_io::Seq;
use ll_grammars::Lexeme;

/// The target of a foreign key: the name of the table that it refers to, and the names of that table's columns if they are written.
#[derive(Debug, Drop)]
pub struct TargetNode {
    pub table: Lexeme,
    pub columns: Option<Seq<Lexeme>>,
}

/// A column's type. `length` is the number in the parentheses of VARCHAR or CHAR VARYING.
#[derive(Clone, Copy, Debug)]
pub enum TypeNode {
    Number,
    Text { length: Lexeme },
}

/// A constraint in a column's definition, after its type (SQL-92 11.4). `word` is the token PRIMARY.
#[derive(Debug, Drop)]
pub enum ColumnConstraintNode {
    NotNull,
    PrimaryKey { word: Lexeme },
    Unique,
    References(TargetNode),
}

/// A column's definition (SQL-92 11.4).
#[derive(Debug, Drop)]
pub struct ColumnNode {
    pub name: Lexeme,
    pub kind: TypeNode,
    pub rules: Seq<ColumnConstraintNode>,
}

/// A constraint that a table's definition states of some of its columns (SQL-92 11.7 and 11.8). `word` is the token PRIMARY.
#[derive(Debug, Drop)]
pub enum TableConstraintNode {
    PrimaryKey {
        word: Lexeme,
        columns: Seq<Lexeme>,
    },
    Unique {
        columns: Seq<Lexeme>,
    },
    ForeignKey {
        columns: Seq<Lexeme>,
        target: TargetNode,
    },
}

/// One item of the list in a table's definition: a column, or a constraint.
#[derive(Debug, Drop)]
pub enum Element {
    Column(ColumnNode),
    Rule(TableConstraintNode),
}

/// A table's definition (SQL-92 11.3).
#[derive(Debug, Drop)]
pub struct TableNode {
    pub name: Lexeme,
    pub elements: Seq<Element>,
}
