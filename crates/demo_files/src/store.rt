//! The store of the shop's files.
ghost use Rattle.std.specs.Prelude.{◌≡◌, ◌∷◌, ◌++◌, [], IfOk, OnOk};
ghost use Rattle.demo_files.specs.Files.{demo_files};

use crate::tables::{customer_csv, item_csv, orders_csv, product_csv};
use crate::texts::{query_sql, schema_sql};
use base_io::{MemStore, Name, NoMemory, Seq};
use std::alloc::Global;

fn add_file(
    files: &mut Seq<(Name, Seq<u8>)>,
    alloc: Global,
    name: &str,
    bytes: Seq<u8>,
) -> Result<(), NoMemory>
    ensures { OnOk result (files.new ≡ files.old ++ (name.now, bytes) ∷ []) }
{
    files.push((Name::from_str(alloc, name)?, bytes))
}

/// The files for this shop number: `schema.sql`, `query.sql`, and the files of the four tables, about 8 MB in all. No read of these files fails.
pub fn demo_store(alloc: Global, number: u32) -> Result<MemStore, NoMemory>
    ensures files { IfOk result (λ store. store.files ≡ demo_files number) }
    ensures fail_at { IfOk result (λ store. store.fail_at ≡ []) }
    ensures calls { IfOk result (λ store. store.calls ≡ 0) }
    ensures faults { IfOk result (λ store. store.faults ≡ 0) }
    ensures misses { IfOk result (λ store. store.misses ≡ 0) }
{
    let mut files = Seq::new(alloc);
    add_file(&mut files, alloc, "schema.sql", schema_sql(alloc)?)?;
    add_file(&mut files, alloc, "query.sql", query_sql(alloc)?)?;
    add_file(&mut files, alloc, "product.csv", product_csv(alloc)?)?;
    add_file(&mut files, alloc, "item.csv", item_csv(alloc, number)?)?;
    add_file(&mut files, alloc, "orders.csv", orders_csv(alloc, number)?)?;
    add_file(
        &mut files,
        alloc,
        "customer.csv",
        customer_csv(alloc, number)?,
    )?;
    Ok(MemStore::new(files, Seq::new(alloc)))
}
