//! Makes a query of a syntax tree, or finds the first refusal: for a name, for a kind (a number compared with a text) or for a limit.
ghost use Rattle.std.specs.Prelude.{◌≡◌, [], Ok, Err, IfOk, IfErr};
ghost use Rattle.schema_types.specs.Validity.{IsValid};
ghost use Rattle.sql_tokens.specs.Words.{IsLexemeOf};
ghost use Rattle.query_grammar.specs.Lexemes.{IsQueryWith};
ghost use Rattle.query_names.specs.Names.{entries, from_offences};
ghost use Rattle.query_names.specs.Answers.{IsNameError};
ghost use Rattle.sql_parse.specs.QueryOrRefusal.{query_or_refusal};
ghost use Rattle.sql_parse.specs.Refusing.{Answers};

use crate::query_limits::after_from;
use base_io::Seq;
use query_grammar::QueryNode;
use query_names::{Binder, Catalog, Entries, QueryError, all_sources, read_entries};
use query_types::{Cond, Out, Query};
use schema_types::Schema;
use std::alloc::Global;

/// The FROM entries of a query text, or the first wrong name in FROM.
#[tactic(auto, using(crate::proofs::TreeFacts::sources_lie_in), unfolding(query_names::specs::Names::entries, query_names::specs::Names::from_offences))]
fn entries_of(
    alloc: Global,
    catalog: &Catalog<'_>,
    text: &[u8],
    query: &QueryNode,
) -> Result<Entries, QueryError>
    requires { IsQueryWith (IsLexemeOf text.now) query.now }
    ensures entries { IfOk result (λ found. found.sources ≡ entries catalog.now.schema.now text.now query.now) }
    ensures names { IfOk result (λ _. from_offences catalog.now.schema.now text.now query.now ≡ []) }
    ensures err { IfErr result (IsNameError (from_offences catalog.now.schema.now text.now query.now)) }
{
    let sources = all_sources(alloc, query.parts.as_slice())?;
    read_entries(alloc, catalog, text, sources.as_slice())
}

/// The conjuncts and the outputs of a query without a wrong name in FROM, or the first refusal.
#[tactic(auto, using(crate::proofs::TreeFacts::behind_refused, crate::proofs::TreeFacts::answered, crate::proofs::TreeFacts::ends_within))]
fn bind_after_from(
    alloc: Global,
    catalog: &Catalog<'_>,
    text: &[u8],
    from: &Entries,
    query: &QueryNode,
) -> Result<(Seq<Cond>, Seq<Out>), QueryError>
    requires valid { IsValid catalog.now.schema.now }
    requires tokens { IsQueryWith (IsLexemeOf text.now) query.now }
    requires from { from.now.sources ≡ entries catalog.now.schema.now text.now query.now }
    requires names { from_offences catalog.now.schema.now text.now query.now ≡ [] }
    ensures ok { IfOk result (λ found.
        Answers (query_or_refusal catalog.now.schema.now text.now query.now)
        (Ok (record { from = from.now.sources; conjuncts = found.0; select = found.1 }))) }
    ensures err { IfErr result (λ e. Answers (query_or_refusal catalog.now.schema.now text.now query.now) (Err e)) }
{
    let binder = Binder {
        alloc,
        catalog,
        text,
        entries: from,
    };
    after_from(&binder, query)
}

/// The query of a syntax tree, or the first refusal in the order names, kinds, limits.
#[tactic(auto, using(crate::proofs::BindFacts::from_refused))]
pub fn bind(
    alloc: Global,
    schema: &Schema,
    text: &[u8],
    query: &QueryNode,
) -> Result<Query, QueryError>
    requires valid { IsValid schema.now }
    requires tokens { IsQueryWith (IsLexemeOf text.now) query.now }
    ensures { Answers (query_or_refusal schema.now text.now query.now) result }
{
    let catalog = Catalog::new(alloc, schema)?;
    let entries = entries_of(alloc, &catalog, text, query)?;
    let (conjuncts, select) = bind_after_from(alloc, &catalog, text, &entries, query)?;
    Ok(Query {
        from: entries.sources,
        conjuncts,
        select,
    })
}
