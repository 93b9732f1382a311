//! Reads the definition of a column (SQL-92 11.4).
ghost use Rattle.ll_grammars.specs.Rules.{IsReadAs};
ghost use Rattle.schema_grammar.specs.Readers.{read_column, read_column_constraint, read_column_rule, read_column_rules, read_constraint_name, read_length, read_type};

use crate::names::name;
use crate::references::target;
use crate::terminals::{
    CHARACTER, CLOSE, COLUMN_RULE, CONSTRAINT, KEY, NOT, NULL, NUMBER, NUMBER_TYPE, OPEN, PRIMARY,
    REFERENCES, UNIQUE, VARCHAR, VARYING,
};
use crate::tree::{ColumnConstraintNode, ColumnNode, TypeNode};
use base_io::Seq;
use ll_grammars::{Lexeme, Reader, Stop};

// "(" n ")"
#[tactic(auto, unfolding(crate::specs::Readers::read_length))]
fn length(reader: &mut Reader<'_>) -> Result<Lexeme, Stop>
    ensures { IsReadAs result reader.new (read_length reader.old) }
{
    reader.one(OPEN)?;
    let number = reader.one(NUMBER)?;
    reader.one(CLOSE)?;
    Ok(number)
}

#[tactic(auto, unfolding(crate::specs::Readers::read_type))]
fn data_type(reader: &mut Reader<'_>) -> Result<TypeNode, Stop>
    ensures { IsReadAs result reader.new (read_type reader.old) }
{
    if reader.starts(NUMBER_TYPE) {
        reader.one(NUMBER_TYPE)?;
        Ok(TypeNode::Number)
    } else if reader.starts(VARCHAR) {
        reader.one(VARCHAR)?;
        let length = length(reader)?;
        Ok(TypeNode::Text { length })
    } else {
        reader.one(CHARACTER)?;
        reader.one(VARYING)?;
        let length = length(reader)?;
        Ok(TypeNode::Text { length })
    }
}

// [ CONSTRAINT name ]
#[tactic(auto, unfolding(crate::specs::Readers::read_constraint_name))]
pub fn constraint_name(reader: &mut Reader<'_>) -> Result<(), Stop>
    ensures { IsReadAs result reader.new (read_constraint_name reader.old) }
{
    if reader.starts(CONSTRAINT) {
        reader.one(CONSTRAINT)?;
        name(reader)?;
    }
    Ok(())
}

#[tactic(auto, unfolding(crate::specs::Readers::read_column_constraint))]
fn column_constraint(reader: &mut Reader<'_>) -> Result<ColumnConstraintNode, Stop>
    ensures { IsReadAs result reader.new (read_column_constraint reader.old) }
{
    if reader.starts(NOT) {
        reader.one(NOT)?;
        reader.one(NULL)?;
        Ok(ColumnConstraintNode::NotNull)
    } else if reader.starts(PRIMARY) {
        let word = reader.one(PRIMARY)?;
        reader.one(KEY)?;
        Ok(ColumnConstraintNode::PrimaryKey { word })
    } else if reader.starts(UNIQUE) {
        reader.one(UNIQUE)?;
        Ok(ColumnConstraintNode::Unique)
    } else {
        reader.one(REFERENCES)?;
        let target = target(reader)?;
        Ok(ColumnConstraintNode::References(target))
    }
}

#[tactic(auto, unfolding(crate::specs::Readers::read_column_rule))]
fn column_rule(reader: &mut Reader<'_>) -> Result<ColumnConstraintNode, Stop>
    ensures { IsReadAs result reader.new (read_column_rule reader.old) }
{
    constraint_name(reader)?;
    column_constraint(reader)
}

#[tactic(auto, using(ll_grammars::proofs::Loops::many_start), unfolding(crate::specs::Readers::read_column_rules))]
fn column_rules(reader: &mut Reader<'_>) -> Result<Seq<ColumnConstraintNode>, Stop>
    ensures { IsReadAs result reader.new (read_column_rules reader.old) }
{
    let mut rules = Seq::new(reader.allocator());
    'others: while reader.starts(COLUMN_RULE) {
        let rule = column_rule(reader)?;
        rules.push(rule)?;
    }
    Ok(rules)
}

// name type { constraint }
#[tactic(auto, unfolding(crate::specs::Readers::read_column))]
pub fn column(reader: &mut Reader<'_>) -> Result<ColumnNode, Stop>
    ensures { IsReadAs result reader.new (read_column reader.old) }
{
    let name = name(reader)?;
    let kind = data_type(reader)?;
    let rules = column_rules(reader)?;
    Ok(ColumnNode { name, kind, rules })
}
