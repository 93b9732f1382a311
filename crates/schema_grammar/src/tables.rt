//! Reads the definitions of tables (SQL-92 11.3, 11.7 and 11.8).
ghost use Rattle.ll_grammars.specs.Rules.{IsReadAs};
ghost use Rattle.schema_grammar.specs.Readers.{Follows, read_all_tables, read_element, read_element_list, read_elements, read_foreign_key, read_next_element, read_table, read_table_constraint, read_table_rule};

use crate::columns::{column, constraint_name};
use crate::names::{name, name_list};
use crate::references::target;
use crate::terminals::{
    CLOSE, COMMA, CREATE, FOREIGN, KEY, NAME, OPEN, PRIMARY, REFERENCES, SEMICOLON, TABLE, UNIQUE,
};
use crate::tree::{Element, TableConstraintNode, TableNode};
use base_io::Seq;
use ll_grammars::{Reader, Stop};

// FOREIGN KEY "(" names ")" REFERENCES target
#[tactic(auto, unfolding(crate::specs::Readers::read_foreign_key))]
fn foreign_key(reader: &mut Reader<'_>) -> Result<TableConstraintNode, Stop>
    ensures { IsReadAs result reader.new (read_foreign_key reader.old) }
{
    reader.one(FOREIGN)?;
    reader.one(KEY)?;
    let columns = name_list(reader)?;
    reader.one(REFERENCES)?;
    let target = target(reader)?;
    Ok(TableConstraintNode::ForeignKey { columns, target })
}

#[tactic(auto, unfolding(crate::specs::Readers::read_table_constraint))]
fn table_constraint(reader: &mut Reader<'_>) -> Result<TableConstraintNode, Stop>
    ensures { IsReadAs result reader.new (read_table_constraint reader.old) }
{
    if reader.starts(PRIMARY) {
        let word = reader.one(PRIMARY)?;
        reader.one(KEY)?;
        let columns = name_list(reader)?;
        Ok(TableConstraintNode::PrimaryKey { word, columns })
    } else if reader.starts(UNIQUE) {
        reader.one(UNIQUE)?;
        let columns = name_list(reader)?;
        Ok(TableConstraintNode::Unique { columns })
    } else {
        foreign_key(reader)
    }
}

#[tactic(auto, unfolding(crate::specs::Readers::read_table_rule))]
fn table_rule(reader: &mut Reader<'_>) -> Result<TableConstraintNode, Stop>
    ensures { IsReadAs result reader.new (read_table_rule reader.old) }
{
    constraint_name(reader)?;
    table_constraint(reader)
}

#[tactic(auto, unfolding(crate::specs::Readers::read_element))]
fn table_element(reader: &mut Reader<'_>) -> Result<Element, Stop>
    ensures { IsReadAs result reader.new (read_element reader.old) }
{
    if reader.starts(NAME) {
        Ok(Element::Column(column(reader)?))
    } else {
        Ok(Element::Rule(table_rule(reader)?))
    }
}

#[tactic(auto, unfolding(crate::specs::Readers::read_next_element))]
fn next_element(reader: &mut Reader<'_>) -> Result<Element, Stop>
    ensures { IsReadAs result reader.new (read_next_element reader.old) }
{
    reader.one(COMMA)?;
    table_element(reader)
}

#[tactic(auto, using(ll_grammars::proofs::Loops::listed_start), unfolding(crate::specs::Readers::read_elements))]
fn elements(reader: &mut Reader<'_>) -> Result<Seq<Element>, Stop>
    ensures { IsReadAs result reader.new (read_elements reader.old) }
{
    let mut elements = Seq::new(reader.allocator());
    let first = table_element(reader)?;
    elements.push(first)?;
    'others: while reader.starts(COMMA) {
        let element = next_element(reader)?;
        elements.push(element)?;
    }
    Ok(elements)
}

#[tactic(auto, unfolding(crate::specs::Readers::read_element_list))]
fn element_list(reader: &mut Reader<'_>) -> Result<Seq<Element>, Stop>
    ensures { IsReadAs result reader.new (read_element_list reader.old) }
{
    reader.one(OPEN)?;
    let elements = elements(reader)?;
    reader.one(CLOSE)?;
    Ok(elements)
}

#[tactic(auto, unfolding(crate::specs::Readers::read_table))]
fn table(reader: &mut Reader<'_>) -> Result<TableNode, Stop>
    ensures { IsReadAs result reader.new (read_table reader.old) }
{
    reader.one(CREATE)?;
    reader.one(TABLE)?;
    let name = name(reader)?;
    let elements = element_list(reader)?;
    Ok(TableNode { name, elements })
}

// Reads a semicolon, if it is the next token, and returns whether another table follows it.
#[tactic(auto, using(crate::proofs::TableLoop::follows, crate::proofs::TableLoop::follows_not))]
fn another_table_follows(reader: &mut Reader<'_>) -> bool
    ensures { Follows result reader.old reader.new }
{
    reader.reads_if_one_of(SEMICOLON) && reader.starts(CREATE)
}

// table { ";" table } [ ";" ]
#[tactic(auto, using(ll_grammars::proofs::Loops::listed_start), unfolding(crate::specs::Readers::read_all_tables))]
pub fn tables(reader: &mut Reader<'_>) -> Result<Seq<TableNode>, Stop>
    ensures { IsReadAs result reader.new (read_all_tables reader.old) }
{
    let mut tables = Seq::new(reader.allocator());
    let first = table(reader)?;
    tables.push(first)?;
    'others: while another_table_follows(reader) {
        let table = table(reader)?;
        tables.push(table)?;
    }
    Ok(tables)
}
