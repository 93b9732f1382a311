//! The columns of an entry for which lists are gathered.
ghost use Rattle.std.specs.Prelude.{◌≡◌, ◌==◌, IfOk, OnOk};
ghost use Rattle.std.specs.List.{list_any};
ghost use Rattle.gathered_stats.specs.Asked.{asked_columns, joined_columns, with_place};

use base_io::{NoMemory, Seq};
use berge_tree::{Edge, Place};
use limits::MOST_COLUMNS;
use std::alloc::Global;

// Whether a column is among these.
fn has(columns: &[u32], column: u32) -> bool
    ensures { result ≡ list_any (λ other. column == other) columns.now }
{
    columns.iter().any(|other| column == *other)
}

// Appends the column of `place` to `columns` if it is a column of this entry and isn't there yet. A `Place` is an entry and one of its columns.
fn add_joined_column(columns: &mut Seq<u32>, place: Place, entry: u8) -> Result<(), NoMemory>
    ensures { OnOk result (columns.new ≡ with_place entry columns.old place) }
{
    if place.entry != entry || has(columns.as_slice(), place.column) {
        return Ok(());
    }
    columns.push(place.column)
}

/// The columns of an entry that equalities name, each once.
pub fn joined_columns(alloc: Global, equalities: &[Edge], entry: u8) -> Result<Seq<u32>, NoMemory>
    ensures { IfOk result (λ columns. columns ≡ joined_columns entry equalities.now) }
{
    let mut columns = Seq::new(alloc);
    for edge in equalities {
        add_joined_column(&mut columns, edge.left, entry)?;
        add_joined_column(&mut columns, edge.right, entry)?;
    }
    Ok(columns)
}

/// The columns of an entry that equalities name, each once. If they name no column of the entry, the result is the number of a column that no table
/// has. In this column all rows have the same key, so its list is made without a sort. The row bound is the same over every column.
pub fn asked_columns(alloc: Global, equalities: &[Edge], entry: u8) -> Result<Seq<u32>, NoMemory>
    ensures { IfOk result (λ columns. columns ≡ asked_columns entry equalities.now) }
{
    let columns = joined_columns(alloc, equalities, entry)?;
    if columns.len() == 0 {
        return Seq::one(alloc, MOST_COLUMNS as u32);
    }
    Ok(columns)
}
