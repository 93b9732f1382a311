//! Reads the outputs, which follow SELECT.
ghost use Rattle.ll_grammars.specs.Rules.{IsReadAs};
ghost use Rattle.query_grammar.specs.Readers.{read_out, read_next_out, read_listed_outs, read_outs};

use crate::operands::{name, new_name};
use crate::terminals::{COMMA, DOT, STAR};
use crate::tree::{ColumnNode, OutNode, OutsNode};
use base_io::Seq;
use ll_grammars::{Reader, Stop};

/// `name "." "*" | colref [ [ AS ] name ]`. The first name is read before it is known whether it names a table or a column.
#[tactic(auto, unfolding(crate::specs::Readers::read_out, crate::specs::Readers::read_dotted_out))]
fn output(reader: &mut Reader<'_>) -> Result<OutNode, Stop>
    ensures { IsReadAs result reader.new (read_out reader.old) }
{
    let first = name(reader)?;
    if reader.starts(DOT) {
        reader.one(DOT)?;
        if reader.starts(STAR) {
            reader.one(STAR)?;
            return Ok(OutNode::All(first));
        }
        let column = name(reader)?;
        let name = new_name(reader)?;
        Ok(OutNode::Column {
            column: ColumnNode {
                table: Some(first),
                column,
            },
            name,
        })
    } else {
        let name = new_name(reader)?;
        Ok(OutNode::Column {
            column: ColumnNode {
                table: None,
                column: first,
            },
            name,
        })
    }
}

#[tactic(auto, unfolding(crate::specs::Readers::read_next_out))]
fn next_output(reader: &mut Reader<'_>) -> Result<OutNode, Stop>
    ensures { IsReadAs result reader.new (read_next_out reader.old) }
{
    reader.one(COMMA)?;
    output(reader)
}

#[tactic(auto, using(ll_grammars::proofs::Loops::listed_start), unfolding(crate::specs::Readers::read_listed_outs))]
fn listed_outputs(reader: &mut Reader<'_>) -> Result<Seq<OutNode>, Stop>
    ensures { IsReadAs result reader.new (read_listed_outs reader.old) }
{
    let mut outs = Seq::new(reader.allocator());
    let first = output(reader)?;
    outs.push(first)?;
    'others: while reader.starts(COMMA) {
        let out = next_output(reader)?;
        outs.push(out)?;
    }
    Ok(outs)
}

/// `"*" | out { "," out }`
#[tactic(auto, unfolding(crate::specs::Readers::read_outs))]
pub fn outputs(reader: &mut Reader<'_>) -> Result<OutsNode, Stop>
    ensures { IsReadAs result reader.new (read_outs reader.old) }
{
    if reader.starts(STAR) {
        reader.one(STAR)?;
        Ok(OutsNode::All)
    } else {
        let outs = listed_outputs(reader)?;
        Ok(OutsNode::Listed(outs))
    }
}
