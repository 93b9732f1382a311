//! The grammar of schema texts. A call takes tokens (`Lexeme`). It gives the syntax trees of the tables, or the byte of the syntax error. This crate
//! doesn't look at what the names in the trees mean; its caller does.
//!
//! Contracts use `SchemaText` (which lists of tokens spell which tables), `IsSyntaxError` of `ll_grammars`, and `AreTablesWith` (the tokens of the
//! trees are tokens of the list).
//!
//! ```text
//! let tables = read_tables(alloc, lexemes.as_slice(), text_len)?;
//! ```
#![tactic(auto)]

mod columns;
pub mod examples;
mod names;
mod references;
mod tables;
mod terminals;
mod tree;

ghost use Rattle.std.specs.Prelude.{◌≡◌, Contains, IfErr, IfOk, List, MatchResult};
ghost use Rattle.ll_grammars.specs.declared.lexeme.Lexeme.{Lexeme as Token};
ghost use Rattle.ll_grammars.specs.Places.{IsSyntaxError};
ghost use Rattle.schema_grammar.specs.declared.tree.TableNode.{TableNode as Table};
ghost use Rattle.schema_grammar.specs.Grammar.{SchemaText};
ghost use Rattle.schema_grammar.specs.Lexemes.{AreTablesWith};

use base_io::Seq;
use ll_grammars::{Lexeme, Reader, Stop, SyntaxError};
use std::alloc::Global;
pub use tree::{
    ColumnConstraintNode, ColumnNode, Element, TableConstraintNode, TableNode, TargetNode, TypeNode,
};

/// The tables that the tokens spell, in the order of the text. `text_len` is the length of the text in bytes.
///
/// Unless memory runs out, the result is `SyntaxError::At` exactly if the tokens spell no schema. Its offset is the start of the first token that
/// can't follow the tokens before it in any schema. If the tokens end too early, the offset is `text_len`.
/// The tokens are read in one pass, with one token of lookahead.
#[tactic(auto, using(crate::proofs::Ends::spelled, crate::proofs::Ends::wrong_at, crate::proofs::Ends::all_found))]
pub fn read_tables(
    alloc: Global,
    tokens: &[Lexeme],
    text_len: u32,
) -> Result<Seq<TableNode>, SyntaxError>
    ensures ok { IfOk result (λ tables. SchemaText tokens.now tables) }
    ensures from_tokens { IfOk result (λ tables. AreTablesWith (Contains tokens.now) tables) }
    ensures syntax { IfErr result (λ e. IsSyntaxError SchemaText tokens.now text_len e) }
    ensures complete { (tables : List Table) → SchemaText tokens.now tables
        → MatchResult result (λ found. found ≡ tables) (λ e. e ≡ SyntaxError.NoMemory) }
{
    let mut reader = Reader::new(alloc, tokens);
    match tables::tables(&mut reader) {
        Ok(tables) => {
            if reader.is_done() {
                Ok(tables)
            } else {
                Err(SyntaxError::At(reader.next_token_start(text_len)))
            }
        }
        Err(Stop::Syntax) => Err(SyntaxError::At(reader.next_token_start(text_len))),
        Err(Stop::NoMemory) => Err(SyntaxError::NoMemory),
    }
}

/// A list of tokens spells at most one list of tables.
pub fn one_meaning()
    ensures { (tokens : List Token) (a b : List Table) → SchemaText tokens a → SchemaText tokens b → a ≡ b }
{}
