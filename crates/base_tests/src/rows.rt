//! Tests of row buffers, and of chains of equal keys.
use base_io::NoMemory;
use link_index::Chains;
use reserve_plan::{empty_chains, row_buffers};
use row_buf::RowBuf;
use std::alloc::Global;
use std::test::Fail;

#[test]
fn reserved_rows_are_pushed(rt: HostRuntime) -> Result<(), Fail> {
    let mut rows = RowBuf::new(rt.alloc());
    rows.reserve(2)?;
    rows.push(5);
    rows.push(7);
    assert_eq!(rt; rows.as_slice(), [5, 7].as_slice());
    assert!(rt; !rows.has_spare());
    rows.set(0, 6);
    assert_eq!(rt; rows.get(0), 6);
    rows.clear();
    rows.fill(1, 9);
    rows.extend(&[4]);
    assert_eq!(rt; rows.as_slice(), [9, 4].as_slice());
    Ok(())
}

// Looks 7 up in chains of the keys [7, 9, 7, 7]: its first place, and its next place. Then the same in the chains after they are loaded with the
// keys [8, 7].
fn places_of_seven(alloc: Global) -> Result<[Option<u32>; 4], NoMemory> {
    let mut chains = Chains::with_room(alloc, 4, 3)?;
    chains.load(&[7, 9, 7, 7]);
    let (first, next) = (chains.first(7), chains.after(0, 7));
    chains.load(&[8, 7]);
    Ok([first, next, chains.first(7), chains.after(1, 7)])
}

#[test]
fn chains_ascend(rt: HostRuntime) -> Result<(), Fail> {
    assert_eq!(rt;
        places_of_seven(rt.alloc())?,
        [Some(0), Some(2), Some(1), None]
    );
    Ok(())
}

// Reserves two row lists, with room for 6 rows and for 0 rows. Returns how many lists there are, and whether each has room for a row.
fn reserved(alloc: Global) -> Result<(usize, bool, bool), NoMemory> {
    let lists = row_buffers(alloc, &[6, 0])?;
    Ok((lists.len(), lists[0].has_spare(), lists[1].has_spare()))
}

#[test]
fn lists_are_reserved(rt: HostRuntime) -> Result<(), Fail> {
    assert_eq!(rt; reserved(rt.alloc())?, (2, true, false));
    Ok(())
}

// The place of 7 in chains that were reserved for one row.
fn place_in_reserved(alloc: Global) -> Result<Option<u32>, NoMemory> {
    let mut chains = empty_chains(alloc, 1)?;
    chains.load(&[7]);
    Ok(chains.first(7))
}

#[test]
fn chains_are_reserved(rt: HostRuntime) -> Result<(), Fail> {
    assert_eq!(rt; place_in_reserved(rt.alloc())?, Some(0));
    Ok(())
}
