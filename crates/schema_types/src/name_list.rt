//! A list of names that finds the index of a name.
ghost use Rattle.std.specs.Prelude.{◌≡◌, ℕ, List, [], ◌∷◌, ◌++◌, IfOk, OnOk, OnErr, length, map};
ghost use Rattle.std.specs.HashMap.{get_by_text, IsUnchanged};
ghost use Rattle.std.specs.Str.{bytes_eq};
ghost use Rattle.schema_types.specs.Names.{index_of_name, index_after_push};
ghost use Rattle.schema_types.specs.Numbers.{number_of_name};

use base_io::{NoMemory, Seq};
use std::alloc::Global;
use std::collections::HashMap;
use std::marker::Model;

/// A list of names that finds the first index of a name with one look-up. In contracts a name is its bytes.
#[derive(Drop)]
pub struct NameList {
    names: Vec<String>,
    indexes: HashMap<String, u32>,
}

impl Model for NameList {
    ghost use Rattle.std.specs.Prelude.{ℕ, ◌≡◌, List, map, string_bytes};
    ghost use Rattle.std.specs.HashMap.{get_by_text};
    ghost use Rattle.schema_types.specs.Names.{index_of_name};

    ghost Value = { List (List ℕ) };

    ghost view = { λ s. map string_bytes s.names.items };

    ghost invariant = { λ s. (name : List ℕ) → get_by_text s.indexes name ≡ index_of_name (map string_bytes s.names.items) name };
}

// Notes the index of a name, if the name has no index yet.
fn note_index(
    indexes: &mut HashMap<String, u32>,
    alloc: Global,
    name: &str,
    index: u32,
) -> Result<(), NoMemory>
    ensures ok { OnOk result ((other : List ℕ)
        → get_by_text indexes.new other ≡ index_after_push (get_by_text indexes.old other) index (bytes_eq other name.now)) }
    ensures err { OnErr result (IsUnchanged indexes.old indexes.new) }
{
    if indexes.get(name).is_none() {
        indexes.insert(String::from_str(alloc, name)?, index)?;
    }
    Ok(())
}

impl NameList {
    /// The empty list.
    #[tactic(auto, unfolding(crate::specs::Names::index_of_name))]
    pub fn new(alloc: Global) -> NameList
        ensures { result ≡ [] }
    {
        NameList {
            names: Vec::new(alloc),
            indexes: HashMap::new(alloc),
        }
    }

    /// The first index of a name, counted from 0.
    pub fn get(&self, name: &str) -> Option<u32>
        ensures { result ≡ index_of_name self.now name.now }
    {
        self.indexes.get(name).copied()
    }

    /// The index of each name in the list `declared`, and 0 for a name that isn't there.
    pub fn numbers_of_columns(
        &self,
        alloc: Global,
        declared: &NameList,
    ) -> Result<Seq<u32>, NoMemory>
        ensures { IfOk result (λ found. found ≡ map (number_of_name declared.now) self.now) }
    {
        let mut found = Seq::new(alloc);
        'names: for name in self.names.as_slice() {
            found.push(declared.get(name.as_str()).unwrap_or(0))?;
        }
        Ok(found)
    }

    /// How many names there are.
    pub fn len(&self) -> usize
        ensures { result ≡ length self.now }
    {
        self.names.len()
    }

    /// Adds a name at the end.
    #[tactic(auto)]
    pub fn push(&mut self, alloc: Global, name: &str) -> Result<(), NoMemory>
        ensures { OnOk result (self.new ≡ self.old ++ name.now ∷ []) }
    {
        // A list of more than 2^32 names counts as too large for the memory.
        let Ok(index) = u32::try_from(self.names.len()) else {
            return Err(NoMemory);
        };
        let last = String::from_str(alloc, name)?;
        self.names.reserve(1)?;
        note_index(&mut self.indexes, alloc, name, index)?;
        self.names.push(last).unwrap();
        Ok(())
    }
}
