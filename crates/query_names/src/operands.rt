//! The operands of tests, with their names resolved.
ghost use Rattle.std.specs.Prelude.{◌≡◌, ◌<◌, Some, IfOk, IfErr};
ghost use Rattle.sql_tokens.specs.Words.{IsLexemeOf};
ghost use Rattle.query_grammar.specs.Lexemes.{IsLiteralWith, IsOperandWith};
ghost use Rattle.query_types.specs.Validity.{is_text};
ghost use Rattle.query_names.specs.Values.{resolved_column};
ghost use Rattle.query_names.specs.Answers.{IsNameError};
ghost use Rattle.query_names.specs.Binding.{FirstTwoAreEnough, name_offences_of};
ghost use Rattle.query_names.specs.Checking.{resolved_literal, IsResolvedOperand};

use crate::QueryError;
use crate::binder::Binder;
use crate::scope::{EntryColumn, Visible};
use crate::values::number_value;
use base_io::{Name, NoMemory};
use ll_grammars::Lexeme;
use query_grammar::{LiteralNode, OperandNode};
use query_types::{ColumnRef, Operand};
use schema_types::Kind;
use sql_tokens::literal;
use std::alloc::Global;

/// An operand without a wrong name: its value, whether it is a text, and its first token.
#[derive(Drop)]
pub struct ResolvedOperand {
    pub value: Operand,
    pub is_text: bool,
    pub first: Lexeme,
}

fn is_text(kind: Kind) -> bool
    ensures { result ≡ is_text kind }
{
    match kind {
        Kind::Int => false,
        Kind::Text(_) => true,
    }
}

/// A copy of an operand.
pub fn copied(alloc: Global, operand: &Operand) -> Result<Operand, NoMemory>
    ensures { IfOk result (λ copy. copy ≡ operand.now) }
{
    match operand {
        Operand::Column(column) => Ok(Operand::Column(*column)),
        Operand::Int(value) => Ok(Operand::Int(*value)),
        Operand::Text(text) => Ok(Operand::Text(Name::from_str(alloc, text.as_str())?)),
    }
}

/// The reference to a column that was found.
pub fn reference_to(column: EntryColumn) -> ColumnRef
    requires { column.from < 256 }
    ensures { result ≡ resolved_column (Some column) }
{
    ColumnRef {
        from: column.from as u8,
        column: column.column,
    }
}

/// The reference to a column of any entry. Entry numbers above 255 become 255: a query with so many entries is refused, so its references
/// aren't used.
fn capped_reference(column: EntryColumn) -> ColumnRef
    ensures { column.from < 256 → result ≡ resolved_column (Some column) }
{
    reference_to(EntryColumn {
        from: column.from.min(255),
        ..column
    })
}

/// The value, the kind and the first token of a literal.
pub fn bind_literal(
    alloc: Global,
    text: &[u8],
    value: &LiteralNode,
) -> Result<ResolvedOperand, NoMemory>
    requires { IsLiteralWith (IsLexemeOf text.now) value.now }
    ensures { IfOk result (λ found. found ≡ resolved_literal text.now value.now) }
{
    match value {
        LiteralNode::Number { sign, digits } => Ok(ResolvedOperand {
            value: Operand::Int(number_value(text, sign, digits)),
            is_text: false,
            first: sign.unwrap_or(*digits),
        }),
        LiteralNode::Text(token) => Ok(ResolvedOperand {
            value: Operand::Text(literal(alloc, text, token)?),
            is_text: true,
            first: *token,
        }),
    }
}

impl<'a> Binder<'a> {
    /// The value, the kind and the first token of an operand, or the offset of its wrong name.
    #[tactic(auto, unfolding(crate::specs::Binding::name_offences_of))]
    pub(crate) fn bind_operand(
        &self,
        visible: &Visible,
        operand: &OperandNode,
    ) -> Result<ResolvedOperand, QueryError>
        requires first_two_enough { FirstTwoAreEnough self.now visible.now }
        requires tokens { IsOperandWith (IsLexemeOf self.now.text.now) operand.now }
        ensures ok { IfOk result (λ found. IsResolvedOperand self.now visible.now.scope operand.now found) }
        ensures err { IfErr result (IsNameError (name_offences_of self.now visible.now.scope operand.now)) }
    {
        match operand {
            OperandNode::Column(reference) => {
                let first = reference.table.unwrap_or(reference.column);
                match self.resolve(visible, reference)? {
                    Some(column) => Ok(ResolvedOperand {
                        value: Operand::Column(capped_reference(column)),
                        is_text: is_text(column.kind),
                        first,
                    }),
                    None => Err(QueryError::Name { at: first.start }),
                }
            }
            OperandNode::Literal(value) => Ok(bind_literal(self.alloc, self.text, value)?),
        }
    }
}
