//! The bounds of the scans and of all sets.
use crate::bounds_of_queries::{scan_bounds, subset_bounds};
use crate::triangle::{database, query};
use base_io::{NoMemory, Seq};
use limits::Accuracy;
use std::alloc::Global;
use std::test::Fail;

fn bounds_of_triangle(alloc: Global) -> Result<(Seq<u64>, Seq<u128>), NoMemory> {
    let query = query(alloc)?;
    let db = database(alloc)?;
    let scans = scan_bounds(alloc, &query, &db, Accuracy::of(1))?;
    let sets = subset_bounds(alloc, &query, &db, Accuracy::of(1))?;
    Ok((scans, sets))
}

#[test]
fn two_sides_have_five_rows_and_all_three_nine(rt: HostRuntime) -> Result<(), Fail> {
    let (scans, sets) = bounds_of_triangle(rt.alloc())?;
    assert!(rt; scans.as_slice() == [3, 3, 3].as_slice());
    assert!(rt; sets.as_slice() == [1, 3, 3, 5, 3, 5, 5, 9].as_slice());
    Ok(())
}
