//! An entry's table, with the columns that the entry's own conjuncts ask for.
ghost use Rattle.std.specs.Prelude.{◌≡◌, ◌<◌, length, slice_index};
ghost use Rattle.sql_meaning.specs.Tables.{cells_of};

use crate::filters::SortedColumn;
use base_io::Seq;
use csv_tables::{Cells, Database, Pool};
use limits::Accuracy;

/// The table of a FROM entry, the columns that the entry's own conjuncts compare with literals, and the accuracy of lists. If `shows_all_rows` is
/// true, the table shows all its rows. Otherwise it shows only the rows whose numbers are in `rows`, in the order of `rows`.
#[derive(Drop)]
pub(crate) struct EntryTable<'a> {
    pub pool: &'a Pool,
    pub cells: &'a Cells,
    pub shows_all_rows: bool,
    pub rows: &'a [u32],
    pub filters: Seq<SortedColumn<'a>>,
    pub accuracy: Accuracy,
}

/// How many rows a table has, which is below 2^32.
pub(crate) fn row_count(cells: &Cells) -> u32
    ensures { result ≡ cells.now.rows }
{
    cells.rows
}

/// The cells of an entry's table.
pub(crate) fn cells_in_entry<'a>(db: &'a Database, entry: u8) -> &'a Cells
    requires slot { entry < length db.now.slots }
    requires cells { slice_index db.now.slots entry < length db.now.cells }
    ensures { result.now ≡ cells_of db.now entry }
{
    let slot = *db.slots.get(usize::from(entry));
    db.cells.get(slot as usize)
}
