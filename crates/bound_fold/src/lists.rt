//! The row bounds of a query's entries, and the lists of their joined columns.
ghost use Rattle.std.specs.Prelude.{◌≡◌, ◌≢◌, ◌⊎◌, ℕ, Some, None, OnOk, OnErr};
ghost use Rattle.std.specs.List.{sum};
ghost use Rattle.std.specs.Option.{option_copied};
ghost use Rattle.bound_fold.specs.BoundMaps.{AreBounds, AreListsOf};

use base_io::NoMemory;
use piece_math::Pieces;
use std::alloc::Global;
use std::collections::HashMap;

/// Row bounds of entries and lists of their columns. An entry may have no row bound yet, and a column no list.
///
/// The sum of each list is the row bound of its entry.
#[derive(Drop)]
pub struct EntryLists {
    rows: HashMap<u8, u64>,
    lists: HashMap<(u8, u32), Pieces>,
    pub ghost bounds: { AreBounds rows },
    pub ghost sums: { AreListsOf rows lists },
}

impl EntryLists {
    ghost use Rattle.bound_fold.specs.Lists.{row_bound_of, list_of};

    /// An `EntryLists` without row bounds and lists. It takes no memory.
    pub fn new(alloc: Global) -> EntryLists
        ensures rows { (entry : ℕ) → row_bound_of result entry ≡ None }
        ensures lists { (entry column : ℕ) → list_of result entry column ≡ None }
    {
        EntryLists {
            rows: HashMap::new(alloc),
            lists: HashMap::new(alloc),
        }
    }

    /// Sets the row bound of an entry. On `NoMemory` nothing is changed.
    pub fn set_rows(&mut self, entry: u8, rows: u64) -> Result<(), NoMemory>
        requires no_list { (column : ℕ) → list_of self.old entry column ≡ None }
        ensures set { OnOk result (row_bound_of self.new entry ≡ Some rows) }
        ensures others { (other : ℕ) → other ≢ entry → row_bound_of self.new other ≡ row_bound_of self.old other }
        ensures lists { (other column : ℕ) → list_of self.new other column ≡ list_of self.old other column }
        ensures err { OnErr result (row_bound_of self.new entry ≡ row_bound_of self.old entry) }
    {
        self.rows.insert(entry, rows)?;
        Ok(())
    }

    /// Adds the list of a column. On `NoMemory` the list is dropped, and nothing else is changed.
    pub fn add(&mut self, entry: u8, column: u32, list: Pieces) -> Result<(), NoMemory>
        requires total { row_bound_of self.old entry ≡ Some (sum list) }
        requires no_list { list_of self.old entry column ≡ None }
        ensures set { OnOk result (list_of self.new entry column ≡ Some list) }
        ensures others { (e c : ℕ) → ((e ≢ entry) ⊎ (c ≢ column)) → list_of self.new e c ≡ list_of self.old e c }
        ensures rows { (other : ℕ) → row_bound_of self.new other ≡ row_bound_of self.old other }
        ensures err { OnErr result (list_of self.new entry column ≡ None) }
    {
        // The contract of this call says that the list is in descending order.
        let _ = list.pieces();
        self.lists.insert((entry, column), list)?;
        Ok(())
    }

    /// The row bound of an entry, if it was set.
    pub fn rows(&self, entry: u8) -> Option<u64>
        ensures { result ≡ row_bound_of self.now entry }
    {
        self.rows.get(&entry).copied()
    }

    /// The list of a column, if it was added.
    pub fn list(&self, entry: u8, column: u32) -> Option<&Pieces>
        ensures { option_copied result ≡ list_of self.now entry column }
    {
        self.lists.get(&(entry, column))
    }
}
