//! Resolves references to columns.
ghost use Rattle.std.specs.Prelude.{◌≡◌, ◌≤◌, ◌<◌, ◌+◌, IfOk, length, ◌==◌, count_by, option_map, slice_get};
ghost use Rattle.sql_tokens.specs.Words.{IsLexemeOf};
ghost use Rattle.query_names.specs.Scopes.{single_member, entry_named, whole_scope, column_of};
ghost use Rattle.query_grammar.specs.Lexemes.{IsColumnWith};
ghost use Rattle.query_names.specs.Binding.{schema_of, from_of, columns_in, FirstTwoAreEnough, resolved_by};

use crate::catalog::Catalog;
use crate::scope::{Entry, EntryColumn, Scope, Visible};
use crate::sources::Entries;
use base_io::{NoMemory, Seq};
use query_grammar::ColumnNode;
use schema_types::Table;
use sql_tokens::name;
use std::alloc::Global;

/// Resolves names, over a schema, a query text and its FROM entries.
#[derive(Drop)]
pub struct Binder<'a> {
    pub alloc: Global,
    pub catalog: &'a Catalog<'a>,
    pub text: &'a [u8],
    pub entries: &'a Entries,
}

/// How many of `entries` have this table.
fn count_of(entries: &[Entry], table: u32) -> usize
    ensures { result ≡ count_by (λ entry. entry.table == table) entries.now }
{
    entries.iter().filter(|entry| entry.table == table).count()
}

impl<'a> Binder<'a> {
    /// The column `name` in the tables of the entries `first_two`, if exactly one of these entries has it.
    fn column_without_alias(&self, first_two: &[Entry], name: &str) -> Option<EntryColumn>
        ensures { result ≡ single_member (columns_in (schema_of self.now) name.now first_two.now) }
    {
        let mut found = None;
        'all: for entry in first_two {
            if let Some(column) = self.catalog.column(name, *entry) {
                if found.is_some() {
                    return None;
                }
                found = Some(column);
            }
        }
        found
    }

    /// The entry with this alias, if it is in scope.
    #[tactic(auto, unfolding(crate::specs::Scopes::entry_named))]
    pub fn entry_named(&self, scope: Scope, alias: &str) -> Option<Entry>
        ensures { result ≡ entry_named (from_of self.now) scope alias.now }
    {
        let number = self.entries.aliases.get(alias)? as usize;
        if scope.first <= number && number < scope.end {
            let source = self.entries.sources.as_slice().get(number)?;
            Some(Entry {
                number,
                table: source.table,
            })
        } else {
            None
        }
    }

    fn column_of(&self, scope: Scope, alias: &str, column: &str) -> Option<EntryColumn>
        ensures { result ≡ column_of (schema_of self.now) self.now.text.now (from_of self.now) scope alias.now column.now }
    {
        let entry = self.entry_named(scope, alias)?;
        self.catalog.column(column, entry)
    }

    /// The column that a reference names, if there is exactly one.
    #[tactic(auto, unfolding(crate::specs::Scopes::resolve, crate::specs::Scopes::column_without_alias))]
    pub fn resolve(
        &self,
        visible: &Visible,
        reference: &ColumnNode,
    ) -> Result<Option<EntryColumn>, NoMemory>
        requires first_two_enough { FirstTwoAreEnough self.now visible.now }
        requires tokens { IsColumnWith (IsLexemeOf self.now.text.now) reference.now }
        ensures { IfOk result (λ found. found ≡ resolved_by self.now visible.now.scope reference.now) }
    {
        let column = name(self.alloc, self.text, &reference.column)?;
        match &reference.table {
            None => Ok(self.column_without_alias(visible.first_two.as_slice(), column.as_str())),
            Some(table) => {
                let alias = name(self.alloc, self.text, table)?;
                Ok(self.column_of(visible.scope, alias.as_str(), column.as_str()))
            }
        }
    }

    /// An empty scope that begins at entry `first`.
    #[tactic(auto, using(crate::proofs::ScopeFacts::first_two_enough_in_empty_scope))]
    pub fn none_visible(&self, first: usize) -> Visible
        ensures first_two_enough { FirstTwoAreEnough self.now result }
        ensures scope { result.scope ≡ record { first = first; end = first } }
    {
        Visible {
            scope: Scope { first, end: first },
            first_two: Seq::new(self.alloc),
        }
    }

    /// Brings the next entry into scope.
    #[tactic(auto, using(crate::proofs::ScopeFacts::first_two_enough_with_one_more, crate::proofs::ScopeFacts::first_two_enough_without_third))]
    pub fn bring_into_scope(&self, visible: &mut Visible) -> Result<(), NoMemory>
        requires first_two_enough { FirstTwoAreEnough self.now visible.old }
        requires begins { visible.old.scope.first ≤ visible.old.scope.end }
        requires ends { visible.old.scope.end < length (from_of self.now) }
        ensures first_two_enough { IfOk result (λ _. FirstTwoAreEnough self.now visible.new) }
        ensures scope { IfOk result (λ _. visible.new.scope ≡ record { first = visible.old.scope.first; end = visible.old.scope.end + 1 }) }
    {
        let number = visible.scope.end;
        let table = self.entries.sources.as_slice()[number].table;
        if count_of(visible.first_two.as_slice(), table) < 2 {
            visible.first_two.push(Entry { number, table })?;
        }
        visible.scope.end = number + 1;
        Ok(())
    }

    /// The table of an entry.
    pub fn table_at(&self, entry: Entry) -> Option<&Table>
        ensures { option_map (λ table. table.now) result ≡ slice_get (schema_of self.now).tables entry.table }
    {
        self.catalog
            .schema()
            .tables
            .as_slice()
            .get(entry.table as usize)
    }

    /// The scope of all entries.
    pub fn all_visible(&self) -> Result<Visible, NoMemory>
        ensures first_two_enough { IfOk result (λ visible. FirstTwoAreEnough self.now visible) }
        ensures scope { IfOk result (λ visible. visible.scope ≡ whole_scope (from_of self.now)) }
    {
        let mut visible = self.none_visible(0);
        'all: for _ in 0..self.entries.sources.len() {
            self.bring_into_scope(&mut visible)?;
        }
        Ok(visible)
    }
}
