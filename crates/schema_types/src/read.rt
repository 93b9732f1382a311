//! Reads a schema text.
ghost use Rattle.std.specs.Prelude.{◌≤◌, All, IfOk, IfErr, length};
ghost use Rattle.limits.specs.Profile.{most_text};
ghost use Rattle.sql_tokens.specs.Words.{IsLexemeOf};
ghost use Rattle.schema_types.specs.Answers.{AreLexemes, IsLexRefusal};
ghost use Rattle.schema_types.specs.Texts.{IsSchemaOf};
ghost use Rattle.schema_types.specs.Validity.{IsValid};

use crate::SchemaError;
use crate::answer::bind;
use crate::types::Schema;
use base_io::Seq;
use ll_grammars::{Lexeme, SyntaxError};
use schema_grammar::read_tables;
use sql_tokens::{LexError, lexemes, tokens};
use std::alloc::Global;

// The tokens of a text, as `Lexeme`s, which grammars take.
fn read_lexemes(alloc: Global, text: &[u8]) -> Result<Seq<Lexeme>, SchemaError>
    requires { length text.now ≤ most_text }
    ensures are { IfOk result (λ found. AreLexemes text.now found) }
    ensures within { IfOk result (λ found. All (IsLexemeOf text.now) found) }
    ensures bad { IfErr result (λ cause. IsLexRefusal text.now cause) }
{
    match tokens(alloc, text) {
        Ok(tokens) => {
            let found = lexemes(alloc, text, tokens.as_slice())?;
            Ok(found)
        }
        Err(LexError::Bad { at }) => Err(SchemaError::Syntax { at }),
        Err(LexError::NoMemory) => Err(SchemaError::NoMemory),
    }
}

// The schema of a text, or the first refusal.
#[tactic(auto, using(crate::proofs::Stages::result_of_text, crate::proofs::Stages::spells_from, crate::proofs::Stages::tables_lie_in_text))]
fn answer(alloc: Global, text: &[u8]) -> Result<Schema, SchemaError>
    requires { length text.now ≤ most_text }
    ensures { IsSchemaOf text.now result }
{
    let lexemes = read_lexemes(alloc, text)?;
    match read_tables(alloc, lexemes.as_slice(), text.len() as u32) {
        Ok(tables) => bind(alloc, text, tables.as_slice()),
        Err(SyntaxError::At(at)) => Err(SchemaError::Syntax { at }),
        Err(SyntaxError::NoMemory) => Err(SchemaError::NoMemory),
    }
}

/// Reads a schema text (SQL-92 11.3, 11.4, 11.7 and 11.8 in this profile). The result is its schema, or the first refusal in the order Syntax, Name,
/// Nullable, Limit. Each refusal is the first of its kind in the text. Offsets count the bytes of the text from 0, a byte order mark included. The
/// text has at most 1,048,576 bytes.
#[tactic(auto, using(crate::proofs::Valid::answers_valid))]
pub fn read_schema(alloc: Global, text: &[u8]) -> Result<Schema, SchemaError>
    requires { length text.now ≤ most_text }
    ensures meaning { IsSchemaOf text.now result }
    ensures valid { IfOk result IsValid }
{
    answer(alloc, text)
}
