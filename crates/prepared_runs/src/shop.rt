//! The shop: files that the command `demo` makes in memory and reads.
ghost use Rattle.std.specs.Prelude.{◌≡◌, IfOk, Some};
ghost use Rattle.demo_files.specs.Files.{demo_files};

use base_io::{MemStore, NoMemory, Store, StoreError};
use demo_files::demo_store;
use std::alloc::Global;
use std::marker::Model;

/// Files in memory. Reading them never fails.
#[derive(Drop)]
pub struct Shop {
    store: MemStore,
}

impl Model for Shop {
    ghost use Rattle.std.specs.Prelude.{◌≡◌, []};
    ghost use Rattle.base_io.specs.declared.mem_store.MemStore.{MemStore};

    ghost Value = { MemStore };

    ghost view = { λ shop. shop.store };

    ghost invariant = { λ shop. shop.store.fail_at ≡ [] };
}

impl Store for Shop {
    ghost files = { λ shop. Some shop.files };

    ghost faults = { λ shop. 0 };

    ghost misses = { λ shop. shop.misses };

    fn read_at(&mut self, name: &str, at: u64, into: &mut [u8]) -> Result<usize, StoreError> {
        self.store.read_at(name, at, into)
    }
}

/// Makes the files of the shop with this number.
pub fn open_shop(alloc: Global, number: u32) -> Result<Shop, NoMemory>
    ensures { IfOk result (λ shop. shop.files ≡ demo_files number) }
{
    let store = demo_store(alloc, number)?;
    Ok(Shop { store })
}
