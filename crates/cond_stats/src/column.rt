//! A filter column, sorted once, and the lists that it makes when a caller asks for one.
ghost use Rattle.std.specs.Prelude.{◌≡◌, ◌/◌, ◌==◌, ◌<◌, ◌^◌, true, false, length, All, IfOk, IfSome, MatchOption};
ghost use Rattle.std.specs.List.{zip};
ghost use Rattle.csv_tables.specs.Cells.{IsCell};
ghost use Rattle.csv_tables.specs.Values.{Int, Text};
ghost use Rattle.cond_stats.specs.Columns.{cell_le, leaf_of_value};
ghost use Rattle.cond_stats.specs.Frequency.{frequent};
ghost use Rattle.cond_stats.specs.Leaves.{cuts, node_size, IsNodeSize};
ghost use Rattle.cond_stats.specs.Lists.{compressed_degrees, is_frequent, keys_with, rest, list_of_value, list_of_node, list_of_range};

use crate::cut_leaves::{leaf_of_int, leaf_of_text};
use crate::cuts::{cuts_of, leaf_starts};
use crate::groups::{ValueRun, by_frequency};
use crate::lists::{list_at, places_between, rest_list, run_of_cell, values_of};
use crate::order::{InOrder, in_order};
use base_io::{NoMemory, Seq};
use csv_tables::{Pool, cell_of};
use limits::Accuracy;
use piece_math::Pieces;
use schema_types::Kind;
use std::alloc::Global;
use std::marker::Model;

/// A filter column whose rows are kept in the order of their values. One `FilterColumn` serves for every joined column of its table. In
/// contracts it stands for the cells in the order of the table's rows, their kind and the texts of the pool.
#[derive(Drop)]
pub struct FilterColumn<'a> {
    pool: &'a Pool,
    kind: Kind,
    cells: &'a [u64],
    places: Vec<u32>,
    groups: Vec<ValueRun>,
    cuts: Vec<u64>,
    starts: Vec<u32>,
}

impl<'a> Model for FilterColumn<'a> {
    ghost use Rattle.cond_stats.specs.Columns.{CellColumn, cell_le};
    ghost use Rattle.cond_stats.specs.Sorted.{IsColumnByLeaves};

    ghost Value = { CellColumn };

    ghost view = { λ f. record { texts = f.pool.now; kind = f.kind; cells = f.cells.now } };

    ghost invariant = { λ f. IsColumnByLeaves
        (cell_le f.pool.now f.kind) f.cells.now f.places.items f.groups.items f.cuts.items f.starts.items };
}

impl<'a> FilterColumn<'a> {
    /// Sorts the rows of a column by the values of their cells.
    pub fn new(
        alloc: Global,
        pool: &'a Pool,
        kind: Kind,
        cells: &'a [u64],
    ) -> Result<FilterColumn<'a>, NoMemory>
        requires cells { All (IsCell pool.now kind) cells.now }
        requires rows { length cells.now < 2 ^ 32 }
        ensures { IfOk result (λ column. column ≡ record { texts = pool.now; kind = kind; cells = cells.now }) }
    {
        let InOrder { places, runs } = in_order(alloc, pool, kind, cells)?;
        let cuts = cuts_of(alloc, cells, places.as_slice())?;
        let starts = leaf_starts(alloc, runs.as_slice(), cells.len() as u32)?;
        let groups = by_frequency(runs);
        Ok(FilterColumn {
            pool,
            kind,
            cells,
            places,
            groups,
            cuts,
            starts,
        })
    }

    /// The list of a value, which is given by its cell. It is the list of the value's rows if the value is frequent, otherwise the rest list. `None`
    /// stands for a text that the pool doesn't have.
    pub fn list_of_value(
        &self,
        joined: &[u64],
        cell: Option<u64>,
        accuracy: Accuracy,
    ) -> Result<Pieces, NoMemory>
        requires joined { length joined.now ≡ length self.now.cells }
        ensures { IfOk result (λ list. list ≡ list_of_value accuracy (zip self.now.cells joined.now) cell) }
    {
        match cell {
            Some(cell) => match self.list_of_frequent(joined, cell, accuracy)? {
                Some(list) => Ok(list),
                None => self.rest(joined, accuracy),
            },
            None => self.rest(joined, accuracy),
        }
    }

    /// The list of a range, by the leaves of its ends: the list of the least node that holds both leaves. `None` is leaf 0 as the low end, and leaf
    /// 31 as the high end.
    pub fn list_of_range(
        &self,
        joined: &[u64],
        low: Option<u8>,
        high: Option<u8>,
        accuracy: Accuracy,
    ) -> Result<Pieces, NoMemory>
        requires joined { length joined.now ≡ length self.now.cells }
        requires low { IfSome low (λ leaf. leaf < 32) }
        requires high { IfSome high (λ leaf. leaf < 32) }
        ensures { IfOk result
            (λ list. list ≡ list_of_range (cell_le self.now.texts self.now.kind) accuracy (zip self.now.cells joined.now) low high) }
    {
        let low = low.unwrap_or(0);
        let high = high.unwrap_or(31);
        self.list_of_node(joined, size_of_node(low, high), low, accuracy)
    }

    /// The leaf of a number: the last leaf whose cut is at most the number, or 0 if there is no such cut.
    pub fn leaf_of_int(&self, value: i64) -> u8
        ensures leaf { result ≡ leaf_of_value self.now.texts self.now.kind self.now.cells (Int value) }
        ensures below { result < 32 }
    {
        leaf_of_int(self.kind, self.cuts.as_slice(), cell_of(value))
    }

    /// The leaf of a text, which need not be in the pool. It is the last leaf whose cut is at most the text, or 0 if there is no such cut.
    pub fn leaf_of_text(&self, text: &str) -> u8
        ensures leaf { result ≡ leaf_of_value self.now.texts self.now.kind self.now.cells (Text text.now) }
        ensures below { result < 32 }
    {
        leaf_of_text(self.kind, self.pool, self.cuts.as_slice(), text)
    }

    /// The rest list: a single list for all values that aren't frequent.
    pub fn rest(&self, joined: &[u64], accuracy: Accuracy) -> Result<Pieces, NoMemory>
        requires joined { length joined.now ≡ length self.now.cells }
        ensures { IfOk result (λ list. list ≡ rest accuracy (zip self.now.cells joined.now)) }
    {
        let frequent = self.groups.len().min(32);
        let remaining = &self.groups[frequent..];
        rest_list(
            *self.places.allocator(),
            joined,
            self.places.as_slice(),
            remaining,
            accuracy,
        )
    }

    /// The list of the node that has `size` leaves and holds `leaf`. The size is 1, 2, 4, 8, 16 or 32.
    pub fn list_of_node(
        &self,
        joined: &[u64],
        size: u8,
        leaf: u8,
        accuracy: Accuracy,
    ) -> Result<Pieces, NoMemory>
        requires joined { length joined.now ≡ length self.now.cells }
        requires size { IsNodeSize size }
        requires leaf { leaf < 32 }
        ensures { IfOk result
            (λ list. list ≡ list_of_node (cell_le self.now.texts self.now.kind) accuracy (zip self.now.cells joined.now) size leaf) }
    {
        let first = (leaf / size * size) as usize;
        let from = self.starts[first];
        let to = self.starts[first + size as usize];
        let places = places_between(self.places.as_slice(), from, to);
        list_at(*self.places.allocator(), joined, places, accuracy)
    }

    /// The cells of the frequent values, the most frequent first.
    pub fn frequent(&self) -> Result<Seq<u64>, NoMemory>
        ensures { IfOk result (λ values. values ≡ frequent self.now.cells) }
    {
        let frequent = self.groups.len().min(32);
        let values = values_of(
            *self.places.allocator(),
            self.cells,
            &self.groups[..frequent],
        )?;
        Ok(Seq::from_vec(values))
    }

    /// The cells at which the leaves begin: 32 cells, or no cells where there are no rows.
    pub fn cuts(&self) -> &[u64]
        ensures { result.now ≡ cuts (cell_le self.now.texts self.now.kind) self.now.cells }
    {
        self.cuts.as_slice()
    }

    // The list of a value, if the value is frequent.
    fn list_of_frequent(
        &self,
        joined: &[u64],
        cell: u64,
        accuracy: Accuracy,
    ) -> Result<Option<Pieces>, NoMemory>
        requires joined { length joined.now ≡ length self.now.cells }
        ensures { IfOk result (λ found. MatchOption found (is_frequent (zip self.now.cells joined.now) cell ≡ false)
            (λ list. (is_frequent (zip self.now.cells joined.now) cell ≡ true)
            × (list ≡ compressed_degrees accuracy (keys_with cell (zip self.now.cells joined.now))))) }
    {
        let frequent = self.groups.len().min(32);
        match run_of_cell(self.cells, &self.groups[..frequent], cell) {
            Some(group) => {
                let start = group.start as usize;
                let places = &self.places[start..start + group.count as usize];
                let list = list_at(*self.places.allocator(), joined, places, accuracy)?;
                Ok(Some(list))
            }
            None => Ok(None),
        }
    }
}

// The size in leaves of the least node that holds both leaves.
fn size_of_node(low: u8, high: u8) -> u8
    ensures size { result ≡ node_size low high }
    ensures dyadic { IsNodeSize result }
{
    if share_a_node(1, low, high) {
        1
    } else if share_a_node(2, low, high) {
        2
    } else if share_a_node(4, low, high) {
        4
    } else if share_a_node(8, low, high) {
        8
    } else if share_a_node(16, low, high) {
        16
    } else {
        32
    }
}

// Whether two leaves lie in one node of this size.
fn share_a_node(size: u8, low: u8, high: u8) -> bool
    requires { 0 < size }
    ensures { result ≡ (low / size == high / size) }
{
    low / size == high / size
}
