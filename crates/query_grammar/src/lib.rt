//! The grammar of query texts, their syntax tree, and a parser. The parser gives the tree that a list of tokens spells, or the byte of the syntax
//! error.
//!
//! This is the second stage of reading a query, after the lexer and a test of `nesting` (how deep parentheses are nested). `read_query_text` makes
//! the tree. Names and literals in it are still tokens; the next stage binds them. Contracts use `QuerySpecification` (which tokens spell which
//! tree), `nesting`, and `IsSyntaxError` of `ll_grammars`.
#![tactic(auto)]

mod clauses;
mod conditions;
mod depth;
pub mod examples;
mod operands;
mod outputs;
mod parser;
mod predicates;
mod terminals;
mod tree;

pub use depth::{MAX_NESTING, nesting};
pub use parser::{one_meaning, read_query_text};
pub use tree::{
    ColumnNode, CondNode, FromItemNode, JoinedNode, LiteralNode, Op, OperandNode, OutNode,
    OutsNode, QueryNode, SourceNode, TestNode,
};
