//! Numbers the values in the columns of each equality. `wiring` makes two slots for each number: one for the value on the left side of the equality,
//! and one for the value on the right side.
ghost use Rattle.std.specs.Prelude.{◌≡◌, ◌+◌, ◌^◌, ◌<◌, ◌≤◌, [], IfOk, OnOk, Some, length, slice_get};
ghost use Rattle.reduced_scans.specs.Wiring.{ValuesAreDifferent, ValuesBeginWith};

use base_io::NoMemory;
use indexmap::IndexSet;
use std::alloc::Global;
use std::marker::Model;

/// The values that were numbered so far. A value is a pair: the number of its equality, and its cell. Texts are equal if their numbers in the pool
/// are equal. In contracts this is the list of these pairs, and a value's number is its index in the list.
#[derive(Drop)]
pub(crate) struct EqualityValues {
    pairs: IndexSet<(u32, u64)>,
}

impl Model for EqualityValues {
    ghost use Rattle.reduced_scans.specs.Wiring.{NumberedValues};

    ghost Value = { NumberedValues };

    ghost view = { λ known_values. known_values.pairs.keys };
}

impl EqualityValues {
    /// No values yet. `new` allocates nothing.
    pub(crate) fn new(alloc: Global) -> EqualityValues
        ensures { result ≡ [] }
    {
        EqualityValues {
            pairs: IndexSet::new(alloc),
        }
    }

    /// The number of values so far. All of them are different.
    pub(crate) fn len(&self) -> usize
        ensures len { result ≡ length self.now }
        ensures different { ValuesAreDifferent self.now }
    {
        self.pairs.len()
    }

    /// The number of a value in this equality. A new value gets the next number. Earlier values keep their numbers.
    pub(crate) fn number(&mut self, equality: u32, cell: u64) -> Result<u32, NoMemory>
        requires { length self.old < 2 ^ 31 }
        ensures value_number { IfOk result (λ value_number. slice_get self.new value_number ≡ Some (equality, cell)) }
        ensures begins { OnOk result (ValuesBeginWith self.old self.new) }
        ensures few { OnOk result (length self.new ≤ length self.old + 1) }
    {
        let (value_number, _) = self.pairs.insert_full((equality, cell))?;
        Ok(value_number as u32)
    }
}
