//! Reads names and lists of names.
ghost use Rattle.ll_grammars.specs.Rules.{IsReadAs};
ghost use Rattle.schema_grammar.specs.Readers.{read_name, read_name_list, read_names, read_next_name};

use crate::terminals::{CLOSE, COMMA, NAME, OPEN};
use base_io::Seq;
use ll_grammars::{Lexeme, Reader, Stop};

#[tactic(auto, unfolding(crate::specs::Readers::read_name))]
pub fn name(reader: &mut Reader<'_>) -> Result<Lexeme, Stop>
    ensures { IsReadAs result reader.new (read_name reader.old) }
{
    reader.one(NAME)
}

#[tactic(auto, unfolding(crate::specs::Readers::read_next_name))]
fn next_name(reader: &mut Reader<'_>) -> Result<Lexeme, Stop>
    ensures { IsReadAs result reader.new (read_next_name reader.old) }
{
    reader.one(COMMA)?;
    name(reader)
}

// name { "," name }
#[tactic(auto, using(ll_grammars::proofs::Loops::listed_start), unfolding(crate::specs::Readers::read_names))]
fn names(reader: &mut Reader<'_>) -> Result<Seq<Lexeme>, Stop>
    ensures { IsReadAs result reader.new (read_names reader.old) }
{
    let mut names = Seq::new(reader.allocator());
    let first = name(reader)?;
    names.push(first)?;
    'others: while reader.starts(COMMA) {
        let name = next_name(reader)?;
        names.push(name)?;
    }
    Ok(names)
}

// "(" names ")"
#[tactic(auto, unfolding(crate::specs::Readers::read_name_list))]
pub fn name_list(reader: &mut Reader<'_>) -> Result<Seq<Lexeme>, Stop>
    ensures { IsReadAs result reader.new (read_name_list reader.old) }
{
    reader.one(OPEN)?;
    let names = names(reader)?;
    reader.one(CLOSE)?;
    Ok(names)
}
