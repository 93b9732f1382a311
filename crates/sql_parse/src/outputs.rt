//! Counts the outputs of a query (SQL-92 7.9), and builds them unless there are too many outputs or FROM entries.
ghost use Rattle.std.specs.Prelude.{◌≡◌, ◌≤◌, ◌<◌, ◌+◌, ◌++◌, ◌∷◌, [], true, false, IfOk, length};
ghost use Rattle.limits.specs.Profile.{most_entries, most_outputs};
ghost use Rattle.schema_types.specs.Validity.{IsValid};
ghost use Rattle.sql_tokens.specs.Words.{IsLexemeOf, name_of};
ghost use Rattle.query_grammar.specs.Lexemes.{IsNameWith};
ghost use Rattle.query_names.specs.Values.{outs_from, resolved_column};
ghost use Rattle.query_names.specs.Binding.{schema_of, from_of};
ghost use Rattle.sql_parse.specs.Outputs.{outs_of_entry_by, capped};

use base_io::{Name, NoMemory, Seq};
use limits::{MOST_ENTRIES, MOST_OUTPUTS};
use ll_grammars::Lexeme;
use query_names::{Binder, Entry, EntryColumn, reference_to};
use query_types::{ColumnRef, Out};
use schema_types::Column;
use sql_tokens::name;
use std::alloc::Global;

/// Outputs that were found. `count` is their number, or `u64::MAX` if that number is larger. `outs` has the outputs, unless there are too many
/// outputs or FROM entries.
#[derive(Drop)]
pub struct FoundOutputs {
    pub outs: Seq<Out>,
    pub count: u64,
}

impl FoundOutputs {
    /// No outputs yet. The call takes no memory.
    pub fn new(alloc: Global) -> FoundOutputs
        ensures outs { result.outs ≡ [] }
        ensures count { result.count ≡ 0 }
    {
        FoundOutputs {
            outs: Seq::new(alloc),
            count: 0,
        }
    }

    /// Counts `more` outputs, and returns whether they are to be built. If a limit is exceeded, the query is refused later, so no memory is taken for
    /// the outputs.
    fn count_more(&mut self, binder: &Binder<'_>, more: u64) -> bool
        ensures count { self.new.count ≡ capped (self.old.count + more) }
        ensures outs { self.new.outs ≡ self.old.outs }
        ensures few { result ≡ true → length (from_of binder.now) ≤ most_entries }
        ensures within { result ≡ true → self.new.count ≤ most_outputs }
        ensures beyond { result ≡ false → length (from_of binder.now) ≤ most_entries → most_outputs < self.new.count }
    {
        self.count = self.count.saturating_add(more);
        binder.entries.sources.len() <= MOST_ENTRIES && self.count <= MOST_OUTPUTS as u64
    }
}

/// Adds these columns of an entry, in their order.
#[tactic(auto, using(crate::proofs::OutFacts::column_added, crate::proofs::OutFacts::columns_added))]
fn add_columns(
    alloc: Global,
    from: u8,
    columns: &[Column],
    outs: &mut Seq<Out>,
) -> Result<(), NoMemory>
    requires few { length columns.now ≤ 64 }
    ensures { IfOk result (λ _. outs.new ≡ outs.old ++ outs_from from 0 columns.now) }
{
    let mut number: u32 = 0;
    'all: for column in columns {
        let name = Name::from_str(alloc, column.name.as_str())?;
        outs.push(Out {
            column: ColumnRef {
                from,
                column: number,
            },
            name,
        })?;
        number += 1;
    }
    Ok(())
}

/// The columns of an entry, in declared order.
#[tactic(auto, using(crate::proofs::OutFacts::columns_within_limit, crate::proofs::OutFacts::some_outs, crate::proofs::OutFacts::no_outs))]
fn columns_of<'a>(binder: &'a Binder<'_>, entry: Entry) -> &'a [Column]
    requires valid { IsValid (schema_of binder.now) }
    ensures few { length result.now ≤ 64 }
    ensures outs { outs_of_entry_by binder.now entry ≡ outs_from entry.number 0 result.now }
{
    match binder.table_at(entry) {
        Some(table) => table.columns.as_slice(),
        None => &[],
    }
}

/// Adds all columns of an entry.
#[tactic(auto, using(crate::proofs::OutFacts::columns_counted))]
pub fn add_entry(
    binder: &Binder<'_>,
    entry: Entry,
    found: &mut FoundOutputs,
) -> Result<(), NoMemory>
    requires valid { IsValid (schema_of binder.now) }
    requires small { length (from_of binder.now) ≤ most_entries → entry.number < 256 }
    ensures count { IfOk result (λ _. found.new.count ≡ capped (found.old.count + length (outs_of_entry_by binder.now entry))) }
    ensures outs { IfOk result (λ _. length (from_of binder.now) ≤ most_entries → found.new.count ≤ most_outputs
        → found.new.outs ≡ found.old.outs ++ outs_of_entry_by binder.now entry) }
{
    let columns = columns_of(binder, entry);
    if !found.count_more(binder, columns.len() as u64) {
        return Ok(());
    }
    add_columns(binder.alloc, entry.number as u8, columns, &mut found.outs)
}

/// Adds a column as an output. `token` spells the output's name.
pub fn add_column(
    binder: &Binder<'_>,
    column: EntryColumn,
    token: &Lexeme,
    found: &mut FoundOutputs,
) -> Result<(), NoMemory>
    requires small { length (from_of binder.now) ≤ most_entries → column.from < 256 }
    requires token { IsNameWith (IsLexemeOf binder.now.text.now) token.now }
    ensures count { IfOk result (λ _. found.new.count ≡ capped (found.old.count + 1)) }
    ensures outs { IfOk result (λ _. length (from_of binder.now) ≤ most_entries → found.new.count ≤ most_outputs
        → found.new.outs ≡ found.old.outs ++ record {
          column = resolved_column (Some column);
          name = name_of binder.now.text.now token.now;
        } ∷ []) }
{
    if !found.count_more(binder, 1) {
        return Ok(());
    }
    let name = name(binder.alloc, binder.text, token)?;
    found.outs.push(Out {
        column: reference_to(column),
        name,
    })
}
