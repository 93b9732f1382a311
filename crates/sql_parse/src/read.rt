//! Reads a query text.
ghost use Rattle.std.specs.Prelude.{◌≡◌, ◌≤◌, All, IfOk, IfErr, length};
ghost use Rattle.limits.specs.Profile.{most_text};
ghost use Rattle.schema_types.specs.Validity.{IsValid};
ghost use Rattle.sql_tokens.specs.Words.{IsLexemeOf};
ghost use Rattle.query_types.specs.Validity.{IsQueryOf};
ghost use Rattle.sql_parse.specs.Stages.{AreLexemes, IsLexRefusal, least_of};
ghost use Rattle.sql_parse.specs.Reading.{IsAnswer};

use crate::binding::bind;
use crate::number_range::check_numbers;
use base_io::Seq;
use ll_grammars::{Lexeme, SyntaxError};
use query_grammar::{MAX_NESTING, nesting, read_query_text};
use query_names::QueryError;
use query_types::Query;
use schema_types::{LimitKind, Schema};
use sql_tokens::{LexError, lexemes, tokens};
use std::alloc::Global;

/// The tokens of a text, as `Lexeme`s, which grammars take.
fn read_lexemes(alloc: Global, text: &[u8]) -> Result<Seq<Lexeme>, QueryError>
    requires { length text.now ≤ most_text }
    ensures are { IfOk result (λ found. AreLexemes text.now found) }
    ensures within { IfOk result (λ found. All (IsLexemeOf text.now) found) }
    ensures bad { IfErr result (λ cause. IsLexRefusal text.now cause) }
{
    match tokens(alloc, text) {
        Ok(tokens) => Ok(lexemes(alloc, text, tokens.as_slice())?),
        Err(LexError::Bad { at }) => Err(QueryError::Syntax { at }),
        Err(LexError::NoMemory) => Err(QueryError::NoMemory),
    }
}

/// The lesser of two byte offsets: `at`, and the offset of a number outside the range, if there is one.
fn least_of(at: u32, number: Option<u32>) -> u32
    ensures { result ≡ least_of at number }
{
    match number {
        Some(other) => at.min(other),
        None => at,
    }
}

/// The query that the tokens of a text mean, or the first refusal.
#[tactic(auto, using(crate::proofs::Answered::too_deep, crate::proofs::Answered::unspelled, crate::proofs::Answered::wrong_number, crate::proofs::Answered::spelled, crate::proofs::Answered::tree_lies_in_text))]
fn answer(
    alloc: Global,
    schema: &Schema,
    text: &[u8],
    lexemes: &[Lexeme],
) -> Result<Query, QueryError>
    requires valid { IsValid schema.now }
    requires small { length text.now ≤ most_text }
    requires are { AreLexemes text.now lexemes.now }
    requires within { All (IsLexemeOf text.now) lexemes.now }
    ensures { IsAnswer schema.now text.now result }
{
    let depth = nesting(lexemes);
    if depth > u64::from(MAX_NESTING) {
        return Err(QueryError::Limit {
            which: LimitKind::Nesting,
            found: depth,
        });
    }
    let number = check_numbers(text, lexemes);
    match read_query_text(alloc, lexemes, text.len() as u32) {
        Ok(query) => match number {
            Some(at) => Err(QueryError::Syntax { at }),
            None => bind(alloc, schema, text, &query),
        },
        Err(SyntaxError::At(at)) => Err(QueryError::Syntax {
            at: least_of(at, number),
        }),
        Err(SyntaxError::NoMemory) => Err(QueryError::NoMemory),
    }
}

/// Reads a query text over a schema (SQL-92 6.3, 6.4, 7.4 to 7.9 and 8 in this profile): its query, or the first refusal. Tokens are tested first,
/// then the limit on nesting. Then the grammar and the range of numbers are tested, then names, then kinds, and last the other limits. A refusal that
/// isn't for a limit has the byte offset of the first error (a byte order mark counts). The text has at most 1,048,576 bytes.
#[tactic(auto, using(crate::proofs::AnswerOfSchema::answer_of_schema, crate::proofs::Answered::unlexed))]
pub fn read_query(alloc: Global, schema: &Schema, text: &[u8]) -> Result<Query, QueryError>
    requires valid { IsValid schema.now }
    requires small { length text.now ≤ most_text }
    ensures meaning { IsAnswer schema.now text.now result }
    ensures of_schema { IfOk result (IsQueryOf schema.now) }
{
    let lexemes = read_lexemes(alloc, text)?;
    answer(alloc, schema, text, lexemes.as_slice())
}
