//! The statistics of a query's entries from which bounds are made.
ghost use Rattle.std.specs.Prelude.{◌≡◌, true, [], ◌∷◌, ◌++◌, IsTrue, OnOk, OnErr};
ghost use Rattle.std.specs.List.{list_all};
ghost use Rattle.predicate_bounds.specs.ListRuns.{is_small};

use crate::running::ListStep;
use base_io::{NoMemory, Seq};
use std::alloc::Global;

/// A joined column of an entry with its steps. A step that puts a list on the stack holds that list, which sums to at most
/// 2^32.
#[derive(Drop)]
pub struct ColumnSteps {
    pub column: u32,
    pub steps: Seq<ListStep>,
    pub ghost small: { list_all is_small steps ≡ true },
}

impl ColumnSteps {
    /// A column without steps. `new` takes no memory.
    pub fn new(alloc: Global, column: u32) -> ColumnSteps
        ensures column { result.column ≡ column }
        ensures steps { result.steps ≡ [] }
    {
        ColumnSteps {
            column,
            steps: Seq::new(alloc),
        }
    }

    /// Appends `step`. If the step holds a list, the list sums to at most 2^32. On `NoMemory` the step is dropped.
    pub fn push(&mut self, step: ListStep) -> Result<(), NoMemory>
        requires { IsTrue (is_small step) }
        ensures steps { OnOk result (self.new.steps ≡ self.old.steps ++ step ∷ []) }
        ensures err { OnErr result (self.new.steps ≡ self.old.steps) }
        ensures column { self.new.column ≡ self.old.column }
    {
        self.steps.push(step)
    }
}

/// The joined columns of an entry. If the entry has no joined column, it has one column here all the same, for its row bound.
#[derive(Drop)]
pub struct EntryStats {
    pub columns: Seq<ColumnSteps>,
}

/// The statistics of a query: for each FROM entry, its joined columns with the lists that the entry's own conjuncts ask for.
#[derive(Drop)]
pub struct QueryStats {
    pub entries: Seq<EntryStats>,
}
