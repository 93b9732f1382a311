//! The parser of whole query texts.
ghost use Rattle.std.specs.Prelude.{◌≡◌, ◌≤◌, List, Contains, IfOk, IfErr, MatchResult};
ghost use Rattle.ll_grammars.specs.declared.lexeme.Lexeme.{Lexeme};
ghost use Rattle.ll_grammars.specs.Places.{IsSyntaxError};
ghost use Rattle.query_grammar.specs.declared.tree.QueryNode.{QueryNode};
ghost use Rattle.query_grammar.specs.Grammar.{QuerySpecification};
ghost use Rattle.query_grammar.specs.Lexemes.{IsQueryWith};
ghost use Rattle.query_grammar.specs.Nesting.{nesting};

use crate::clauses::query;
use crate::depth::MAX_NESTING;
use crate::tree::QueryNode;
use ll_grammars::{Lexeme, Reader, Stop, SyntaxError};
use std::alloc::Global;

/// Reads the query that the tokens spell, in one pass, or finds the byte of the syntax error. The error is at the start of the first token that can't
/// follow the tokens before it in any query. If the tokens end too early, it is at `text_len`, the length of the text in bytes. The recursion is as
/// deep as the parentheses are nested.
#[tactic(auto, using(crate::proofs::Whole::spelled, crate::proofs::Whole::wrong_after, crate::proofs::Whole::wrong_at, crate::proofs::Whole::all_found))]
pub fn read_query_text(
    alloc: Global,
    tokens: &[Lexeme],
    text_len: u32,
) -> Result<QueryNode, SyntaxError>
    requires { nesting tokens.now ≤ MAX_NESTING }
    ensures ok { IfOk result (λ query. QuerySpecification tokens.now query) }
    ensures from_tokens { IfOk result (IsQueryWith (Contains tokens.now)) }
    ensures syntax { IfErr result (IsSyntaxError QuerySpecification tokens.now text_len) }
    ensures complete { (query : QueryNode) → QuerySpecification tokens.now query
        → MatchResult result (λ found. found ≡ query) (λ e. e ≡ SyntaxError.NoMemory) }
{
    let mut reader = Reader::new(alloc, tokens);
    match query(&mut reader) {
        Ok(query) => {
            if reader.is_done() {
                Ok(query)
            } else {
                Err(SyntaxError::At(reader.next_token_start(text_len)))
            }
        }
        Err(Stop::Syntax) => Err(SyntaxError::At(reader.next_token_start(text_len))),
        Err(Stop::NoMemory) => Err(SyntaxError::NoMemory),
    }
}

/// A list of tokens spells at most one query.
pub fn one_meaning()
    ensures { (tokens : List Lexeme) (a b : QueryNode) → QuerySpecification tokens a → QuerySpecification tokens b → a ≡ b }
{}
