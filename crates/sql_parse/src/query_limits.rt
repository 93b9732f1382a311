//! The limits on queries, and the first refusal of a query whose FROM entries are known.
ghost use Rattle.std.specs.Prelude.{◌≡◌, ◌≤◌, Some, None, IfOk, IfErr, length};
ghost use Rattle.std.specs.List.{flat_map};
ghost use Rattle.schema_types.specs.Validity.{IsValid};
ghost use Rattle.sql_tokens.specs.Words.{IsLexemeOf};
ghost use Rattle.query_grammar.specs.Lexemes.{IsQueryWith};
ghost use Rattle.query_names.specs.declared.errors.QueryError.TheVariants as error;
ghost use Rattle.query_names.specs.Names.{sources_of};
ghost use Rattle.query_names.specs.Answers.{first};
ghost use Rattle.query_names.specs.Binding.{schema_of, from_of};
ghost use Rattle.sql_parse.specs.AfterFrom.{conjuncts_by};
ghost use Rattle.sql_parse.specs.Outputs.{selected_by};
ghost use Rattle.sql_parse.specs.Refusing.{limits_exceeded, refusals_after_from, IsFirstOf};

use crate::clauses::check_clauses;
use base_io::Seq;
use limits::{MOST_CONJUNCTS, MOST_ENTRIES, MOST_OUTPUTS};
use query_grammar::QueryNode;
use query_names::{Binder, LateOffences, QueryError};
use query_types::{Cond, Out};
use schema_types::LimitKind;

fn limit(which: LimitKind, found: u64) -> Option<QueryError>
    ensures { result ≡ Some (error.Limit which found) }
{
    Some(QueryError::Limit { which, found })
}

/// The first limit that is exceeded.
fn first_limit(
    entries: u64,
    list: Option<usize>,
    conjuncts: u64,
    outputs: u64,
) -> Option<QueryError>
    ensures { result ≡ first (limits_exceeded entries list conjuncts outputs) }
{
    if entries > MOST_ENTRIES as u64 {
        limit(LimitKind::FromEntries, entries)
    } else if let Some(found) = list {
        limit(LimitKind::InValues, found as u64)
    } else if conjuncts > MOST_CONJUNCTS as u64 {
        limit(LimitKind::Conjuncts, conjuncts)
    } else if outputs > MOST_OUTPUTS as u64 {
        limit(LimitKind::Outputs, outputs)
    } else {
        None
    }
}

/// The conjuncts and the outputs of a query whose FROM entries are known, or the first refusal: for a name, a kind or a limit.
#[tactic(auto, using(crate::proofs::BindFacts::name_refused, crate::proofs::BindFacts::kind_refused))]
pub fn after_from(
    binder: &Binder<'_>,
    query: &QueryNode,
) -> Result<(Seq<Cond>, Seq<Out>), QueryError>
    requires valid { IsValid (schema_of binder.now) }
    requires ends { length (flat_map sources_of query.now.parts) ≤ length (from_of binder.now) }
    requires tokens { IsQueryWith (IsLexemeOf binder.now.text.now) query.now }
    ensures none { IfOk result (λ _. first (refusals_after_from binder.now query.now) ≡ None) }
    ensures conjuncts { IfOk result (λ found. found.0 ≡ conjuncts_by binder.now query.now) }
    ensures outputs { IfOk result (λ found. found.1 ≡ selected_by binder.now query.now.outs) }
    ensures err { IfErr result (IsFirstOf (refusals_after_from binder.now query.now)) }
{
    let visible = binder.all_visible()?;
    let mut held = LateOffences {
        kind: None,
        list: None,
    };
    let mut conjuncts = Seq::new(binder.alloc);
    let found = check_clauses(binder, &visible, query, &mut held, &mut conjuncts)?;
    if let Some(at) = held.kind {
        return Err(QueryError::Kind { at });
    }
    let entries = binder.entries.sources.len() as u64;
    match first_limit(entries, held.list, conjuncts.len() as u64, found.count) {
        Some(wrong) => Err(wrong),
        None => Ok((conjuncts, found.outs)),
    }
}
