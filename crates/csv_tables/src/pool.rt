//! The texts of tables, each once.
ghost use Rattle.std.specs.Prelude.{◌≡◌, ◌<◌, ◌^◌, [], All, length, position, slice_get, Some, IfOk, OnOk, OnErr};
ghost use Rattle.std.specs.List.{position_or_len};
ghost use Rattle.std.specs.Str.{IsUtf8, bytes_eq};
ghost use Rattle.csv_tables.specs.Pools.{with_text, TextsAreDifferent};

use base_io::NoMemory;
use indexmap::IndexSet;
use std::alloc::Global;
use std::marker::Model;

/// Different texts, numbered from 0 in the order in which they were added. In contracts a `Pool` is the list of its texts, each as its bytes.
#[derive(Drop)]
pub struct Pool {
    texts: IndexSet<String>,
}

impl Model for Pool {
    ghost use Rattle.std.specs.Prelude.{List, ℕ, ◌<◌, ◌^◌, length, map, string_bytes};

    ghost Value = { List (List ℕ) };

    ghost view = { λ pool. map string_bytes pool.texts.keys };

    ghost invariant = { λ pool. length pool.texts.keys < 2 ^ 32 };
}

impl Pool {
    /// An empty pool. It takes no memory.
    pub fn new(alloc: Global) -> Pool
        ensures { result ≡ [] }
    {
        Pool {
            texts: IndexSet::new(alloc),
        }
    }

    /// How many texts the pool has. They are all different, and each is UTF-8.
    pub fn len(&self) -> usize
        ensures len { result ≡ length self.now }
        ensures few { result < 2 ^ 32 }
        ensures different { TextsAreDifferent self.now }
        ensures texts { All IsUtf8 self.now }
    {
        self.texts.len()
    }

    /// The number of a text, if the pool has it.
    pub fn find(&self, text: &str) -> Option<u32>
        ensures { result ≡ position (bytes_eq text.now) self.now }
    {
        match self.texts.get_index_of(text) {
            Some(code) => Some(code as u32),
            None => None,
        }
    }

    /// The text with this number.
    pub fn text(&self, code: u32) -> &str
        requires { code < length self.now }
        ensures { slice_get self.now code ≡ Some result.now }
    {
        self.texts[code as usize].as_str()
    }

    /// The number of a text. If the text is new, it is added at the end of the pool. If there is too
    /// little memory, the pool stays as it was.
    pub fn intern(&mut self, text: &str) -> Result<u32, NoMemory>
        requires { length self.old < 4294967295 }
        ensures number { IfOk result (λ code. slice_get self.new code ≡ Some text.now) }
        ensures place { IfOk result (λ code. code ≡ position_or_len (bytes_eq text.now) self.old) }
        ensures texts { OnOk result (self.new ≡ with_text self.old text.now) }
        ensures err { OnErr result (self.new ≡ self.old) }
    {
        if let Some(code) = self.find(text) {
            return Ok(code);
        }
        let owned = String::from_str(*self.texts.allocator(), text)?;
        let (code, _) = self.texts.insert_full(owned)?;
        Ok(code as u32)
    }
}
