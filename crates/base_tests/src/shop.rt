//! Tests one call of `demo_store`: how many lines and bytes each file has, and how it begins and ends. The numbers follow from the tables of
//! the shop: a header in each, and 20,000 products, 400,000 items, 200,000 orders and 50,000 customers.
use base_io::NoMemory;
use demo_files::demo_store;
use std::alloc::Global;
use std::test::Fail;

const FRONTS: [&[u8]; 6] = [
    b"CREATE TABLE PRODUCT (ID INTEGER PRIMARY KEY, KIND INTEGER NOT NULL);\n",
    b"SELECT C.ID, O.ID, P.ID\n",
    b"ID,KIND\r\n0,0\r\n1,1\r\n2,2\r\n3,3\r\n4,0\r\n",
    b"ORDER_ID,PRODUCT\r\n7,0\r\n10,0\r\n13,1\r\n16,1\r\n",
    b"ID,CUSTOMER,DAYNO\r\n0,7,0\r\n1,14,1\r\n",
    b"ID,REGION\r\n0,7\r\n1,8\r\n2,9\r\n3,0\r\n",
];

const ENDS: [&[u8]; 6] = [
    b"REGION INTEGER NOT NULL);\n",
    b"O.DAYNO BETWEEN 25 AND 49\n",
    b"\r\n19999,3\r\n",
    b"\r\n1,9\r\n4,19999\r\n",
    b"\r\n199999,0,99\r\n",
    b"\r\n49999,6\r\n",
];

fn lines_of(bytes: &[u8]) -> usize {
    let mut lines: usize = 0;
    for byte in bytes {
        if *byte == b'\n' {
            lines = lines.saturating_add(1);
        }
    }
    lines
}

// For each file: how many lines and bytes it has, and whether it begins and ends as it should.
fn summaries(alloc: Global, number: u32) -> Result<Vec<(usize, usize, bool)>, NoMemory> {
    let store = demo_store(alloc, number)?;
    let mut summaries = Vec::new(alloc);
    for (file, (front, end)) in store
        .files
        .as_slice()
        .iter()
        .zip(FRONTS.iter().zip(ENDS.iter()))
    {
        let bytes = file.1.as_slice();
        let fits = bytes.starts_with(front) && bytes.ends_with(end);
        summaries.push((lines_of(bytes), bytes.len(), fits))?;
    }
    Ok(summaries)
}

#[test]
fn the_shop_of_number_seven(rt: HostRuntime) -> Result<(), Fail> {
    let summaries = summaries(rt.alloc(), 7)?;
    assert_eq!(rt;
        summaries.as_slice(),
        [
            (4, 313, true),
            (5, 207, true),
            (20_001, 168_899, true),
            (400_001, 4_466_698, true),
            (200_001, 3_224_469, true),
            (50_001, 438_901, true),
        ]
        .as_slice()
    );
    Ok(())
}
