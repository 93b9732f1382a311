//! Reads predicates: comparisons, BETWEEN and IN.
ghost use Rattle.ll_grammars.specs.Rules.{IsReadAs};
ghost use Rattle.query_grammar.specs.Readers.{read_operator, read_negation, read_predicate, read_flat};

use crate::operands::{operand, value_list};
use crate::terminals::{
    AND, BETWEEN, EQUAL, GREATER, GREATER_OR_EQUAL, IN, LESS, LESS_OR_EQUAL, NOT, NOT_EQUAL,
    OPERATOR,
};
use crate::tree::{CondNode, Op, TestNode};
use ll_grammars::{Reader, Stop};

#[tactic(auto, unfolding(crate::specs::Readers::read_operator))]
fn operator(reader: &mut Reader<'_>) -> Result<Op, Stop>
    ensures { IsReadAs result reader.new (read_operator reader.old) }
{
    if reader.starts(EQUAL) {
        reader.one(EQUAL)?;
        Ok(Op::Eq)
    } else if reader.starts(NOT_EQUAL) {
        reader.one(NOT_EQUAL)?;
        Ok(Op::Ne)
    } else if reader.starts(LESS) {
        reader.one(LESS)?;
        Ok(Op::Lt)
    } else if reader.starts(LESS_OR_EQUAL) {
        reader.one(LESS_OR_EQUAL)?;
        Ok(Op::Le)
    } else if reader.starts(GREATER) {
        reader.one(GREATER)?;
        Ok(Op::Gt)
    } else {
        reader.one(GREATER_OR_EQUAL)?;
        Ok(Op::Ge)
    }
}

/// Reads NOT, if it is the next token, and returns whether it was.
#[tactic(auto, unfolding(crate::specs::Readers::read_negation))]
pub fn negation(reader: &mut Reader<'_>) -> Result<bool, Stop>
    ensures { IsReadAs result reader.new (read_negation reader.old) }
{
    if reader.starts(NOT) {
        reader.one(NOT)?;
        Ok(true)
    } else {
        Ok(false)
    }
}

/// A comparison, BETWEEN or IN. The left operand is read first, since all three begin with an operand.
#[tactic(auto, unfolding(crate::specs::Readers::read_predicate))]
fn predicate(reader: &mut Reader<'_>) -> Result<TestNode, Stop>
    ensures { IsReadAs result reader.new (read_predicate reader.old) }
{
    let operand_ = operand(reader)?;
    if reader.starts(OPERATOR) {
        let op = operator(reader)?;
        let right = operand(reader)?;
        return Ok(TestNode::Compare {
            left: operand_,
            op,
            right,
        });
    }
    let negated = negation(reader)?;
    if reader.starts(BETWEEN) {
        reader.one(BETWEEN)?;
        let low = operand(reader)?;
        reader.one(AND)?;
        let high = operand(reader)?;
        Ok(TestNode::Between {
            operand: operand_,
            negated,
            low,
            high,
        })
    } else {
        reader.one(IN)?;
        let values = value_list(reader)?;
        Ok(TestNode::In {
            operand: operand_,
            negated,
            values,
        })
    }
}

/// A test without parentheses around it.
#[tactic(auto, unfolding(crate::specs::Readers::read_flat))]
pub fn flat_test(reader: &mut Reader<'_>) -> Result<CondNode, Stop>
    ensures { IsReadAs result reader.new (read_flat reader.old) }
{
    let test = predicate(reader)?;
    Ok(CondNode::Test(test))
}
