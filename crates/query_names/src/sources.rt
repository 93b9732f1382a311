//! The FROM entries of a query text.
ghost use Rattle.std.specs.Prelude.{◌≡◌, [], ◌∷◌, ◌++◌, All, IfOk, IfErr, map};
ghost use Rattle.std.specs.List.{flat_map};
ghost use Rattle.sql_tokens.specs.Words.{IsLexemeOf};
ghost use Rattle.query_names.specs.Names.{sources_of, alias_token, entry_of, source_offences, offences_of_later_sources};
ghost use Rattle.query_grammar.specs.Lexemes.{IsSourceWith};
ghost use Rattle.query_names.specs.Answers.{IsNameError};

use crate::QueryError;
use crate::catalog::Catalog;
use base_io::{NoMemory, Seq};
use ll_grammars::Lexeme;
use query_grammar::{FromItemNode, SourceNode};
use query_types::Source;
use schema_types::NameList;
use sql_tokens::name;
use std::alloc::Global;

/// The FROM entries in text order. An entry can be found by its alias.
#[derive(Drop)]
pub struct Entries {
    pub sources: Seq<Source>,
    pub aliases: NameList,
    ghost named: { aliases ≡ map (λ source. source.alias) sources },
}

fn add_sources(found: &mut Seq<SourceNode>, part: &FromItemNode) -> Result<(), NoMemory>
    ensures { IfOk result (λ _. found.new ≡ found.old ++ sources_of part.now) }
{
    found.push(part.first)?;
    'all: for join in part.joins.as_slice() {
        found.push(join.source)?;
    }
    Ok(())
}

/// The sources of FROM in text order.
pub fn all_sources(alloc: Global, parts: &[FromItemNode]) -> Result<Seq<SourceNode>, NoMemory>
    ensures { IfOk result (λ found. found ≡ flat_map sources_of parts.now) }
{
    let mut found = Seq::new(alloc);
    'all: for part in parts {
        add_sources(&mut found, part)?;
    }
    Ok(found)
}

/// The token that names an entry.
fn alias_token(source: &SourceNode) -> Lexeme
    ensures { result ≡ alias_token source.now }
{
    source.alias.unwrap_or(source.table)
}

/// The entry of a source. `aliases` has the aliases of the entries before it, and the new alias is added.
fn entry(
    alloc: Global,
    catalog: &Catalog<'_>,
    text: &[u8],
    aliases: &mut NameList,
    source: &SourceNode,
) -> Result<Source, QueryError>
    requires { IsSourceWith (IsLexemeOf text.now) source.now }
    ensures ok { IfOk result (λ found. (found ≡ entry_of catalog.now.schema.now text.now source.now)
        × (aliases.new ≡ aliases.old ++ found.alias ∷ []) × (source_offences catalog.now.schema.now text.now aliases.old source.now ≡ [])) }
    ensures err { IfErr result (IsNameError (source_offences catalog.now.schema.now text.now aliases.old source.now)) }
{
    let table_name = name(alloc, text, &source.table)?;
    let Some(table) = catalog.table(table_name.as_str()) else {
        return Err(QueryError::Name {
            at: source.table.start,
        });
    };
    let token = alias_token(source);
    let alias = name(alloc, text, &token)?;
    if aliases.get(alias.as_str()).is_some() {
        return Err(QueryError::Name { at: token.start });
    }
    aliases.push(alloc, alias.as_str())?;
    Ok(Source { table, alias })
}

/// The FROM entries, or the offset of the first wrong name in FROM.
pub fn read_entries(
    alloc: Global,
    catalog: &Catalog<'_>,
    text: &[u8],
    sources: &[SourceNode],
) -> Result<Entries, QueryError>
    requires { All (IsSourceWith (IsLexemeOf text.now)) sources.now }
    ensures ok { IfOk result (λ found. (found.sources ≡ map (entry_of catalog.now.schema.now text.now) sources.now)
        × (offences_of_later_sources catalog.now.schema.now text.now [] sources.now ≡ [])) }
    ensures err { IfErr result (IsNameError (offences_of_later_sources catalog.now.schema.now text.now [] sources.now)) }
{
    let mut found = Seq::new(alloc);
    let mut aliases = NameList::new(alloc);
    'all: for source in sources {
        let one = entry(alloc, catalog, text, &mut aliases, source)?;
        found.push(one)?;
    }
    Ok(Entries {
        sources: found,
        aliases,
    })
}
