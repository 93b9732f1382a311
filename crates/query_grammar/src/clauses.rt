//! Reads FROM, WHERE, and whole queries.
ghost use Rattle.ll_grammars.specs.Rules.{IsReadAs};
ghost use Rattle.query_grammar.specs.Readers.{read_within, read_source, read_join, read_joins, read_part, read_next_part, read_parts, read_condition_after_where, read_filter, read_query};

use crate::conditions::condition;
use crate::depth::MAX_NESTING;
use crate::operands::{name, new_name, optional};
use crate::outputs::outputs;
use crate::terminals::{COMMA, FROM, INNER, JOIN, JOIN_FIRST, ON, SELECT, SEMICOLON, WHERE};
use crate::tree::{CondNode, FromItemNode, JoinedNode, QueryNode, SourceNode};
use base_io::Seq;
use ll_grammars::{Reader, Stop};

/// `name [ [ AS ] name ]`
#[tactic(auto, unfolding(crate::specs::Readers::read_source))]
fn source(reader: &mut Reader<'_>) -> Result<SourceNode, Stop>
    ensures { IsReadAs result reader.new (read_source reader.old) }
{
    let table = name(reader)?;
    let alias = new_name(reader)?;
    Ok(SourceNode { table, alias })
}

/// `[ INNER ] JOIN source ON cond`
#[tactic(auto, unfolding(crate::specs::Readers::read_join))]
fn join(reader: &mut Reader<'_>) -> Result<JoinedNode, Stop>
    ensures { IsReadAs result reader.new (read_join (read_within MAX_NESTING) reader.old) }
{
    optional(reader, INNER)?;
    reader.one(JOIN)?;
    let source = source(reader)?;
    reader.one(ON)?;
    let on = condition(reader, MAX_NESTING)?;
    Ok(JoinedNode { source, on })
}

#[tactic(auto, using(ll_grammars::proofs::Loops::many_start), unfolding(crate::specs::Readers::read_joins))]
fn joins(reader: &mut Reader<'_>) -> Result<Seq<JoinedNode>, Stop>
    ensures { IsReadAs result reader.new (read_joins (read_within MAX_NESTING) reader.old) }
{
    let mut joins = Seq::new(reader.allocator());
    'others: while reader.starts(JOIN_FIRST) {
        let join = join(reader)?;
        joins.push(join)?;
    }
    Ok(joins)
}

/// `source { [ INNER ] JOIN source ON cond }`
#[tactic(auto, unfolding(crate::specs::Readers::read_part))]
fn part(reader: &mut Reader<'_>) -> Result<FromItemNode, Stop>
    ensures { IsReadAs result reader.new (read_part (read_within MAX_NESTING) reader.old) }
{
    let first = source(reader)?;
    let joins = joins(reader)?;
    Ok(FromItemNode { first, joins })
}

#[tactic(auto, unfolding(crate::specs::Readers::read_next_part))]
fn next_part(reader: &mut Reader<'_>) -> Result<FromItemNode, Stop>
    ensures { IsReadAs result reader.new (read_next_part (read_within MAX_NESTING) reader.old) }
{
    reader.one(COMMA)?;
    part(reader)
}

#[tactic(auto, using(ll_grammars::proofs::Loops::listed_start), unfolding(crate::specs::Readers::read_parts))]
fn parts(reader: &mut Reader<'_>) -> Result<Seq<FromItemNode>, Stop>
    ensures { IsReadAs result reader.new (read_parts (read_within MAX_NESTING) reader.old) }
{
    let mut parts = Seq::new(reader.allocator());
    let first = part(reader)?;
    parts.push(first)?;
    'others: while reader.starts(COMMA) {
        let part = next_part(reader)?;
        parts.push(part)?;
    }
    Ok(parts)
}

#[tactic(auto, unfolding(crate::specs::Readers::read_condition_after_where))]
fn condition_after_where(reader: &mut Reader<'_>) -> Result<CondNode, Stop>
    ensures { IsReadAs result reader.new (read_condition_after_where (read_within MAX_NESTING) reader.old) }
{
    reader.one(WHERE)?;
    condition(reader, MAX_NESTING)
}

/// `[ WHERE cond ]`
#[tactic(auto, unfolding(crate::specs::Readers::read_filter))]
fn filter(reader: &mut Reader<'_>) -> Result<Option<CondNode>, Stop>
    ensures { IsReadAs result reader.new (read_filter (read_within MAX_NESTING) reader.old) }
{
    if reader.starts(WHERE) {
        let condition = condition_after_where(reader)?;
        Ok(Some(condition))
    } else {
        Ok(None)
    }
}

/// `SELECT outs FROM part { "," part } [ WHERE cond ] [ ";" ]`
#[tactic(auto, unfolding(crate::specs::Readers::read_query))]
pub fn query(reader: &mut Reader<'_>) -> Result<QueryNode, Stop>
    ensures { IsReadAs result reader.new (read_query (read_within MAX_NESTING) reader.old) }
{
    reader.one(SELECT)?;
    let outs = outputs(reader)?;
    reader.one(FROM)?;
    let parts = parts(reader)?;
    let filter = filter(reader)?;
    optional(reader, SEMICOLON)?;
    Ok(QueryNode {
        outs,
        parts,
        filter,
    })
}
