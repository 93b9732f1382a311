//! Reads names, columns, literals and operands.
ghost use Rattle.ll_grammars.specs.Reading.{read_one, read_maybe};
ghost use Rattle.ll_grammars.specs.Rules.{IsReadAs};
ghost use Rattle.query_grammar.specs.Readers.{read_name, read_other_name, read_new_name, read_dotted_name, read_column, read_number, read_literal, read_operand, read_next_literal, read_literals, read_value_list};

use crate::terminals::{
    ALIAS_FIRST, AS, CLOSE, COMMA, DIGITS, DOT, NAME, NUMBER, OPEN, SIGN, TEXT,
};
use crate::tree::{ColumnNode, LiteralNode, OperandNode};
use base_io::Seq;
use ll_grammars::{Lexeme, Reader, Stop, Terminal};

/// Reads the next token if its terminal is one of `terminals`.
pub fn optional(reader: &mut Reader<'_>, terminals: &[Terminal]) -> Result<Option<Lexeme>, Stop>
    ensures { IsReadAs result reader.new (read_maybe terminals.now (read_one terminals.now) reader.old) }
{
    if reader.starts(terminals) {
        let token = reader.one(terminals)?;
        Ok(Some(token))
    } else {
        Ok(None)
    }
}

#[tactic(auto, unfolding(crate::specs::Readers::read_name))]
pub fn name(reader: &mut Reader<'_>) -> Result<Lexeme, Stop>
    ensures { IsReadAs result reader.new (read_name reader.old) }
{
    reader.one(NAME)
}

#[tactic(auto, unfolding(crate::specs::Readers::read_other_name))]
fn other_name(reader: &mut Reader<'_>) -> Result<Lexeme, Stop>
    ensures { IsReadAs result reader.new (read_other_name reader.old) }
{
    optional(reader, AS)?;
    name(reader)
}

/// `[ [ AS ] name ]`
#[tactic(auto, unfolding(crate::specs::Readers::read_new_name))]
pub fn new_name(reader: &mut Reader<'_>) -> Result<Option<Lexeme>, Stop>
    ensures { IsReadAs result reader.new (read_new_name reader.old) }
{
    if reader.starts(ALIAS_FIRST) {
        let name = other_name(reader)?;
        Ok(Some(name))
    } else {
        Ok(None)
    }
}

#[tactic(auto, unfolding(crate::specs::Readers::read_dotted_name))]
fn dotted_name(reader: &mut Reader<'_>) -> Result<Lexeme, Stop>
    ensures { IsReadAs result reader.new (read_dotted_name reader.old) }
{
    reader.one(DOT)?;
    name(reader)
}

/// `name [ "." name ]`
#[tactic(auto, unfolding(crate::specs::Readers::read_column))]
fn column(reader: &mut Reader<'_>) -> Result<ColumnNode, Stop>
    ensures { IsReadAs result reader.new (read_column reader.old) }
{
    let first = name(reader)?;
    if reader.starts(DOT) {
        let column = dotted_name(reader)?;
        Ok(ColumnNode {
            table: Some(first),
            column,
        })
    } else {
        Ok(ColumnNode {
            table: None,
            column: first,
        })
    }
}

#[tactic(auto, unfolding(crate::specs::Readers::read_number))]
fn number(reader: &mut Reader<'_>) -> Result<LiteralNode, Stop>
    ensures { IsReadAs result reader.new (read_number reader.old) }
{
    let sign = optional(reader, SIGN)?;
    let digits = reader.one(DIGITS)?;
    Ok(LiteralNode::Number { sign, digits })
}

/// `[ "+" | "-" ] Number | Text`
#[tactic(auto, unfolding(crate::specs::Readers::read_literal))]
fn literal(reader: &mut Reader<'_>) -> Result<LiteralNode, Stop>
    ensures { IsReadAs result reader.new (read_literal reader.old) }
{
    if reader.starts(NUMBER) {
        number(reader)
    } else {
        let text = reader.one(TEXT)?;
        Ok(LiteralNode::Text(text))
    }
}

#[tactic(auto, unfolding(crate::specs::Readers::read_next_literal))]
fn next_literal(reader: &mut Reader<'_>) -> Result<LiteralNode, Stop>
    ensures { IsReadAs result reader.new (read_next_literal reader.old) }
{
    reader.one(COMMA)?;
    literal(reader)
}

#[tactic(auto, using(ll_grammars::proofs::Loops::listed_start), unfolding(crate::specs::Readers::read_literals))]
fn literals(reader: &mut Reader<'_>) -> Result<Seq<LiteralNode>, Stop>
    ensures { IsReadAs result reader.new (read_literals reader.old) }
{
    let mut literals = Seq::new(reader.allocator());
    let first = literal(reader)?;
    literals.push(first)?;
    'others: while reader.starts(COMMA) {
        let literal = next_literal(reader)?;
        literals.push(literal)?;
    }
    Ok(literals)
}

/// `"(" literal { "," literal } ")"`
#[tactic(auto, unfolding(crate::specs::Readers::read_value_list))]
pub fn value_list(reader: &mut Reader<'_>) -> Result<Seq<LiteralNode>, Stop>
    ensures { IsReadAs result reader.new (read_value_list reader.old) }
{
    reader.one(OPEN)?;
    let values = literals(reader)?;
    reader.one(CLOSE)?;
    Ok(values)
}

/// `colref | literal`
#[tactic(auto, unfolding(crate::specs::Readers::read_operand))]
pub fn operand(reader: &mut Reader<'_>) -> Result<OperandNode, Stop>
    ensures { IsReadAs result reader.new (read_operand reader.old) }
{
    if reader.starts(NAME) {
        let column = column(reader)?;
        Ok(OperandNode::Column(column))
    } else {
        let literal = literal(reader)?;
        Ok(OperandNode::Literal(literal))
    }
}
