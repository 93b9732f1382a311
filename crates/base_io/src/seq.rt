ghost use Rattle.std.specs.Prelude.{◌≡◌, [], ◌∷◌, ◌++◌, ◌<◌, length, slice_get, slice_set, Some, IfOk, MatchOption, OnOk, OnErr};

use crate::NoMemory;
use std::alloc::Global;
use std::marker::Model;

/// A growable list. Contracts speak of its items, and not of its capacity. A recursive type may have a field that is a `Seq` of this type.
#[derive(Debug, Drop)]
pub struct Seq<T> {
    items: Vec<T>,
}

impl<T> Model for Seq<T> {
    ghost use Rattle.std.specs.Prelude.{List};
    ghost use Rattle.std.specs.Coded.{coded_list};

    ghost Value = { List T };

    ghost coded = { coded_list T.code };

    ghost view = { λ seq. seq.items.items };
}

impl<T> Seq<T> {
    /// The empty list. It allocates nothing.
    pub fn new(alloc: Global) -> Seq<T>
        ensures { result ≡ [] }
    {
        Seq {
            items: Vec::new(alloc),
        }
    }

    /// Makes a list of a vector's items.
    pub fn from_vec(items: Vec<T>) -> Seq<T>
        ensures { result ≡ items.items }
    {
        Seq { items }
    }

    /// The items as a vector, in the memory of the list.
    pub fn into_vec(self) -> Vec<T>
        ensures { result.items ≡ self }
    {
        let Seq { items } = self;
        items
    }

    /// Removes the last item and returns it. An empty list gives `None`.
    pub fn pop(&mut self) -> Option<T>
        ensures { MatchOption result ((self.old ≡ []) × (self.new ≡ [])) (λ last. self.old ≡ self.new ++ last ∷ []) }
    {
        self.items.pop()
    }

    /// Puts an item at an index, counted from 0, and returns the item that was there.
    pub fn replace(&mut self, i: usize, item: T) -> T
        requires { i < length self.old }
        ensures old { slice_get self.old i ≡ Some result }
        ensures new { self.new ≡ slice_set self.old i item }
    {
        std::mem::replace(&mut self.items[i], item)
    }

    /// The item at an index, counted from 0.
    pub fn get(&self, i: usize) -> &T
        requires { i < length self.now }
        ensures { slice_get self.now i ≡ Some result.now }
    {
        &self.items[i]
    }

    /// How many items there are.
    pub fn len(&self) -> usize
        ensures { result ≡ length self.now }
    {
        self.items.len()
    }

    /// The items as a slice.
    pub fn as_slice(&self) -> &[T]
        ensures { result.now ≡ self.now }
    {
        self.items.as_slice()
    }
}

impl<T: Drop> Seq<T> {
    /// The list of one item. On `NoMemory` the item is dropped.
    pub fn one(alloc: Global, item: T) -> Result<Seq<T>, NoMemory>
        ensures { IfOk result (λ seq. seq ≡ item ∷ []) }
    {
        let mut seq = Seq::new(alloc);
        seq.push(item)?;
        Ok(seq)
    }

    /// Appends an item. On `NoMemory` the item is dropped.
    pub fn push(&mut self, item: T) -> Result<(), NoMemory>
        ensures ok { OnOk result (self.new ≡ self.old ++ item ∷ []) }
        ensures err { OnErr result (self.new ≡ self.old) }
    {
        self.items.push(item)?;
        Ok(())
    }
}
