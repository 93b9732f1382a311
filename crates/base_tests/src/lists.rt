//! Tests of lists, names, sets of entries, degree lists and pieces.
ghost use Rattle.std.specs.Prelude.{◌≡◌};
ghost use Rattle.piece_compress.specs.BinaryDigits.{most_pieces};

use base_io::{Boxed, Name, NoMemory, Seq};
use counted_sets::{Use, reduce};
use degree_lists::falling;
use entry_sets::EntrySet;
use limits::Accuracy;
use piece_compress::{compress, compress_runs};
use piece_math::{Piece, Pieces};
use row_buf::RowBuf;
use std::alloc::Global;
use std::test::Fail;

#[test]
fn lists_and_names(rt: HostRuntime) -> Result<(), Fail> {
    let mut items = Seq::from_vec(Vec::from_slice(rt.alloc(), b"ab")?);
    items.push(99)?;
    assert_eq!(rt; items.len(), 3);
    assert_eq!(rt; items.replace(0, 120), 97);
    assert_eq!(rt; items.pop(), Some(99));
    assert_eq!(rt; items.as_slice(), b"xb".as_slice());
    let seven = Boxed::new(rt.alloc(), 7_u8)?;
    assert_eq!(rt; *seven.get(), 7);
    assert_eq!(rt; Name::from_str(rt.alloc(), "r.csv")?.as_str(), "r.csv");
    Ok(())
}

#[test]
fn sets_gain_and_lose_entries(rt: HostRuntime) {
    let set = EntrySet::empty().with(3).with(15).with(3).without(15);
    assert_eq!(rt; set.bits(), 8);
}

// The degrees of three different keys, which occur five times, three times and once.
fn degrees(alloc: Global) -> Result<Seq<u64>, NoMemory> {
    falling(alloc, &[8, 8, 8, 8, 8, 2, 2, 2, 5])
}

// The degrees 5, 3 and 1 compressed at accuracy 1: the elements 5 and 4, each a piece.
fn compressed(alloc: Global) -> Result<Pieces, NoMemory> {
    compress(alloc, &[5, 3, 1], Accuracy::of(1))
}

// The most pieces that the compression of a list with the first degree `first` can have.
fn pieces_at_most(first: u64, accuracy: Accuracy) -> u32
    ensures { result ≡ most_pieces first accuracy }
{
    u32::from(accuracy.value()) * (u64::BITS - first.leading_zeros()) + 1
}

#[test]
fn degrees_and_their_compression(rt: HostRuntime) -> Result<(), Fail> {
    assert_eq!(rt; degrees(rt.alloc())?.as_slice(), [5, 3, 1].as_slice());
    let pieces = compressed(rt.alloc())?;
    assert_eq!(rt; (pieces.total(), pieces.pieces().len()), (9, 2));
    assert_eq!(rt; pieces_at_most(5, Accuracy::of(1)), 4);
    Ok(())
}

// The list with these runs, each a degree and its number of keys. The result is `NoMemory`, which fails the test, in these cases: a degree is above
// the degree before it, a degree or a number of keys is 0, or the numbers of keys sum to 2^64 or more.
fn of_runs(alloc: Global, runs: &[(u64, u64)]) -> Result<Pieces, NoMemory> {
    let mut list = Pieces::empty(alloc);
    let mut last = u64::MAX;
    let mut room = u64::MAX;
    'runs: for &(degree, keys) in runs {
        if degree == 0 || degree > last || keys == 0 || keys > room {
            return Err(NoMemory);
        }
        list.push_run(u128::from(degree), keys)?;
        last = degree;
        room -= keys;
    }
    Ok(list)
}

// Ten billion rows: 6,000 keys have 1,000,000 rows each, 5,000 keys have 600,001 each, and 999,995 keys have 1,000 each.
const MANY_ROWS: [(u64, u64); 3] = [(1_000_000, 6_000), (600_001, 5_000), (1_000, 999_995)];

// `MANY_ROWS` compressed at accuracy 1. The second degree is more than half of the first, so its 3,000,005,000 rows are counted at the first degree.
// 995,000 rows of the third degree fill them up to 3,001,000,000 rows: 3,001 more keys of 1,000,000 rows. 999,000,000 rows of the third degree are
// left: 999,000 keys of 1,000 rows.
fn many_compressed(alloc: Global) -> Result<Pieces, NoMemory> {
    let list = of_runs(alloc, &MANY_ROWS)?;
    if list.total() != 10_000_000_000 {
        return Err(NoMemory);
    }
    compress_runs(alloc, &list, Accuracy::of(1))
}

#[test]
fn ten_billion_rows_are_compressed_by_their_runs(rt: HostRuntime) -> Result<(), Fail> {
    let list = many_compressed(rt.alloc())?;
    let first = Piece {
        value: 1_000_000,
        count: 9_001,
    };
    let others = Piece {
        value: 1_000,
        count: 999_000,
    };
    assert!(rt; list.pieces() == [first, others].as_slice());
    Ok(())
}

// Combines the lists [3, 1] and [2, 2, 1] rank by rank. Returns the total of the greater elements, the total of the sums, and that of the products.
fn totals(alloc: Global) -> Result<[u128; 3], NoMemory> {
    let short = Pieces::from_list(alloc, &[3, 1])?;
    let lengths = Pieces::from_list(alloc, &[2, 2, 1])?;
    let greater = short.greater(&lengths)?.total();
    let sum = short.sum(&lengths)?.total();
    Ok([greater, sum, short.product(&lengths)?.total()])
}

#[test]
fn lists_are_combined_by_rank(rt: HostRuntime) -> Result<(), Fail> {
    assert_eq!(rt; totals(rt.alloc())?, [6, 9, 8]);
    Ok(())
}

// Item 1 needs slot 2, which no item gives, so item 1 is dropped. Then item 0 is dropped, since it needs slot 1 of item 1. Item 2 gives the slot
// that it needs, and item 3 needs no slot, so these two stay.
fn kept_items(alloc: Global) -> Result<RowBuf<bool>, NoMemory> {
    let uses = [
        Use {
            item: 0,
            gives: 0,
            needs: 1,
        },
        Use {
            item: 1,
            gives: 1,
            needs: 2,
        },
        Use {
            item: 2,
            gives: 3,
            needs: 3,
        },
    ];
    reduce(alloc, 4, 4, &uses)
}

#[test]
fn items_are_dropped_one_after_another(rt: HostRuntime) -> Result<(), Fail> {
    let marks = kept_items(rt.alloc())?;
    assert!(rt; marks.as_slice() == [false, false, true, true].as_slice());
    Ok(())
}
