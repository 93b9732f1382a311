//! Comparisons of a column with a literal, turned so that the literal is on the right.
ghost use Rattle.std.specs.Prelude.{◌≡◌, IfOk, option_map};
ghost use Rattle.filtered_lists.specs.Comparisons.{negated_operator, mirrored};
ghost use Rattle.predicate_bounds.specs.Comparing.{comparison_with_literal, literal_of_operand};

use crate::steps::Literal;
use base_io::{Name, NoMemory};
use query_grammar::Op;
use query_types::Operand;
use std::alloc::Global;

/// A column compared with a literal on its right.
#[derive(Debug, Drop)]
pub(crate) struct LiteralComparison {
    pub op: Op,
    pub column: u32,
    pub literal: Literal,
}

/// The comparison that holds exactly where `op` doesn't hold.
pub(crate) fn negated_operator(op: Op) -> Op
    ensures { result ≡ negated_operator op }
{
    match op {
        Op::Eq => Op::Ne,
        Op::Ne => Op::Eq,
        Op::Lt => Op::Ge,
        Op::Le => Op::Gt,
        Op::Gt => Op::Le,
        Op::Ge => Op::Lt,
    }
}

// The comparison that holds exactly where `op` holds with its sides swapped: < becomes >, and = stays =.
fn mirrored(op: Op) -> Op
    ensures { result ≡ mirrored op }
{
    match op {
        Op::Eq => Op::Eq,
        Op::Ne => Op::Ne,
        Op::Lt => Op::Gt,
        Op::Le => Op::Ge,
        Op::Gt => Op::Lt,
        Op::Ge => Op::Le,
    }
}

// The literal of an operand, or None if the operand is a column.
fn literal_of_operand(alloc: Global, operand: &Operand) -> Result<Option<Literal>, NoMemory>
    ensures { IfOk result (λ literal. literal ≡ literal_of_operand operand.now) }
{
    match operand {
        Operand::Column(_) => Ok(None),
        Operand::Int(number) => Ok(Some(Literal::Int(*number))),
        Operand::Text(text) => Ok(Some(Literal::Text(Name::from_str(alloc, text.as_str())?))),
    }
}

// The comparison of a column with an operand, or None if the operand isn't a literal.
fn comparison_with_operand(
    alloc: Global,
    op: Op,
    column: u32,
    operand: &Operand,
) -> Result<Option<LiteralComparison>, NoMemory>
    ensures { IfOk result (λ compared. compared
        ≡ option_map (λ literal. record { op = op; column = column; literal = literal }) (literal_of_operand operand.now)) }
{
    match literal_of_operand(alloc, operand)? {
        Some(literal) => Ok(Some(LiteralComparison {
            op,
            column,
            literal,
        })),
        None => Ok(None),
    }
}

/// The comparison of a column with a literal on either side, or None for any other comparison.
pub(crate) fn comparison_with_literal(
    alloc: Global,
    op: Op,
    left: &Operand,
    right: &Operand,
) -> Result<Option<LiteralComparison>, NoMemory>
    ensures { IfOk result (λ compared. compared ≡ comparison_with_literal op left.now right.now) }
{
    if let Operand::Column(column) = left {
        return comparison_with_operand(alloc, op, column.column, right);
    }
    if let Operand::Column(column) = right {
        return comparison_with_operand(alloc, mirrored(op), column.column, left);
    }
    Ok(None)
}
