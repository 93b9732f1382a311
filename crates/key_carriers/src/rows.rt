//! Makes the widened table, as row numbers.
ghost use Rattle.std.specs.Prelude.{◌≡◌, ◌≤◌, IfOk, OnOk};
ghost use Rattle.limits.specs.Profile.{most_rows};
ghost use Rattle.sql_meaning.specs.Databases.{AreTables};
ghost use Rattle.sql_meaning.specs.Tables.{row_counts, tables_of};
ghost use Rattle.key_carriers.specs.Cells.{AreOfOneKind, column_at_place, with_found, with_other};
ghost use Rattle.key_carriers.specs.Widened.{referred, referring};

use crate::key_rows::KeyRows;
use base_io::NoMemory;
use berge_tree::{Edge, Place};
use csv_tables::Database;
use join_steps::{cells_of_column, recall_texts_are_different};
use query_types::ColumnRef;
use std::alloc::Global;

/// `rows` has the rows of an entry that refer to a row of another entry, in file order. `others` has, for each of `rows`, the row to which it refers.
#[derive(Drop)]
pub struct Widened {
    pub rows: Vec<u32>,
    pub others: Vec<u32>,
}

fn column_at_place(place: Place) -> ColumnRef
    ensures { result ≡ column_at_place place }
{
    ColumnRef {
        from: place.entry,
        column: place.column,
    }
}

impl Widened {
    // Adds a row and the row to which it refers, if there is such a row.
    fn add(&mut self, row: u32, other: Option<u32>) -> Result<(), NoMemory>
        ensures rows { OnOk result (self.new.rows.items ≡ with_found self.old.rows.items row other) }
        ensures others { OnOk result (self.new.others.items ≡ with_other self.old.others.items other) }
    {
        if let Some(other) = other {
            self.rows.push(row)?;
            self.others.push(other)?;
        }
        Ok(())
    }
}

/// The rows of an equality's left entry that refer to a row of its right entry, each with the row to which it refers. Each row of the left entry is
/// looked up once, by its cell. Time and memory are linear in the rows of both entries.
pub fn widened_rows(alloc: Global, db: &Database, edge: Edge) -> Result<Widened, NoMemory>
    requires tables { AreTables db.now }
    requires kinds { AreOfOneKind db.now edge }
    requires rows { row_counts (tables_of db.now) edge.left.entry ≤ most_rows }
    requires within_limit { row_counts (tables_of db.now) edge.right.entry ≤ most_rows }
    ensures rows { IfOk result (λ made. made.rows.items ≡ referring (tables_of db.now) edge) }
    ensures others { IfOk result (λ made. made.others.items ≡ referred (tables_of db.now) edge) }
{
    recall_texts_are_different(&db.pool);
    let left = cells_of_column(db, column_at_place(edge.left));
    let right = cells_of_column(db, column_at_place(edge.right));
    let key = KeyRows::new(alloc, right)?;
    let mut made = Widened {
        rows: Vec::with_capacity(alloc, left.len())?,
        others: Vec::with_capacity(alloc, left.len())?,
    };
    'rows: for row in 0..left.len() {
        let other = key.row_of(left[row]);
        made.add(row as u32, other)?;
    }
    Ok(made)
}
