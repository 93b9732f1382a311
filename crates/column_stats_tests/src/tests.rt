ghost use Rattle.std.specs.Prelude.{IfOk};
ghost use Rattle.column_stats.specs.Stats.{IsValid};

use base_io::NoMemory;
use column_stats::ColumnStats;
use csv_tables::Pool;
use limits::Accuracy;
use pair_tables::{for_equal, for_range, gather, leaf_int, leaf_text, table_of_pair};
use piece_math::Pieces;
use schema_types::Kind;
use std::alloc::Global;
use std::test::Fail;

// The statistics of a column of numbers for a joined column, at accuracy 1.
fn statistics(alloc: Global, filter: &[u64], joined: &[u64]) -> Result<ColumnStats, NoMemory>
    ensures { IfOk result IsValid }
{
    let pool = Pool::new(alloc);
    let cells = table_of_pair(alloc, &pool, Kind::Int, filter, joined)?;
    gather(alloc, &cells, &pool, 0, 1, Accuracy::of(1))
}

// The sum of a list, and the number of its runs.
fn sum_and_run_count(list: &Pieces) -> (u128, usize) {
    (list.total(), list.pieces().len())
}

// The numbers from 1 to `last`.
fn numbers(alloc: Global, last: u64) -> Result<Vec<u64>, NoMemory> {
    let mut numbers = Vec::new(alloc);
    for number in 1..=last {
        numbers.push(number)?;
    }
    Ok(numbers)
}

// 32 values have four rows each, all with one joined key. The value 100 has the keys 5, 6 and 7, and the value 200 has the key 8 twice. The result
// is sum and number of runs of the lists of 0, 31 and 100, and of the rest list.
fn lists_with_two_infrequent_values(alloc: Global) -> Result<[(u128, usize); 4], NoMemory> {
    let mut filter = Vec::new(alloc);
    let mut joined = Vec::new(alloc);
    for i in 0..128 {
        filter.push(i / 4)?;
        joined.push(1)?;
    }
    filter.extend_from_slice(&[100, 100, 100, 200, 200])?;
    joined.extend_from_slice(&[5, 6, 7, 8, 8])?;
    let stats = statistics(alloc, filter.as_slice(), joined.as_slice())?;
    Ok([
        sum_and_run_count(for_equal(&stats, Some(0))),
        sum_and_run_count(for_equal(&stats, Some(31))),
        sum_and_run_count(for_equal(&stats, Some(100))),
        sum_and_run_count(&stats.rest),
    ])
}

// The column has 1 to `last`, and is the joined column too. The result is how many values are frequent. Then come sum and number of runs of the
// lists of `last` and of an absent value.
fn lists_of_numbers_up_to(
    alloc: Global,
    last: u64,
) -> Result<(usize, (u128, usize), (u128, usize)), NoMemory> {
    let column = numbers(alloc, last)?;
    let stats = statistics(alloc, column.as_slice(), column.as_slice())?;
    let of_last = sum_and_run_count(for_equal(&stats, Some(last)));
    let absent = sum_and_run_count(for_equal(&stats, None));
    Ok((stats.frequent.len(), of_last, absent))
}

// The leaves of three numbers. Then sum and number of runs of the list from the first number's leaf to the last number's leaf.
fn leaves_of(
    alloc: Global,
    column: &[u64],
    values: [i64; 3],
) -> Result<([u8; 3], (u128, usize)), NoMemory> {
    let stats = statistics(alloc, column, column)?;
    let [first, middle, last] = values;
    let low = leaf_int(&stats, first);
    let high = leaf_int(&stats, last);
    let list = sum_and_run_count(for_range(&stats, Some(low), Some(high)));
    Ok(([low, leaf_int(&stats, middle), high], list))
}

// How many cuts and nodes there are without rows. Then sum and number of runs of the list of a range.
fn statistics_without_rows(alloc: Global) -> Result<(usize, usize, (u128, usize)), NoMemory> {
    let stats = statistics(alloc, &[], &[])?;
    let list = sum_and_run_count(for_range(&stats, None, None));
    Ok((stats.cuts.len(), stats.nodes.len(), list))
}

// The leaves of "a", "b" and "c" in a column of texts. Then sum and number of runs of the list up to "a". In the pool "b" comes before "a".
fn leaves_of_texts(alloc: Global) -> Result<([u8; 3], (u128, usize)), NoMemory> {
    let mut pool = Pool::new(alloc);
    let b = u64::from(pool.intern("b")?);
    if pool.len() >= 100 {
        return Err(NoMemory);
    }
    let a = u64::from(pool.intern("a")?);
    let filter = [b, a, b, a];
    let cells = table_of_pair(alloc, &pool, Kind::Text(1), &filter, &[1, 2, 3, 2])?;
    let stats = gather(alloc, &cells, &pool, 0, 1, Accuracy::of(1))?;
    let low = leaf_text(&stats, &pool, "a");
    let list = sum_and_run_count(for_range(&stats, None, Some(low)));
    let leaves = [
        low,
        leaf_text(&stats, &pool, "b"),
        leaf_text(&stats, &pool, "c"),
    ];
    Ok((leaves, list))
}

#[test]
fn values(rt: HostRuntime) -> Result<(), Fail> {
    assert_eq!(rt;
        lists_with_two_infrequent_values(rt.alloc())?,
        [(4, 1), (4, 1), (3, 2), (3, 2)]
    );
    assert_eq!(rt;
        lists_of_numbers_up_to(rt.alloc(), 40)?,
        (32, (1, 1), (1, 1))
    );
    assert_eq!(rt; lists_of_numbers_up_to(rt.alloc(), 3)?, (3, (1, 1), (0, 0)));
    Ok(())
}

#[test]
fn leaves(rt: HostRuntime) -> Result<(), Fail> {
    let column = numbers(rt.alloc(), 32)?;
    let crossed = leaves_of(rt.alloc(), column.as_slice(), [5, 3, 2])?;
    assert_eq!(rt; crossed, ([4, 2, 1], (8, 1)));
    let six = leaves_of(rt.alloc(), &[1, 1, 1, 2, 2, 3], [1, 2, 3])?;
    assert_eq!(rt; six, ([15, 26, 31], (6, 1)));
    assert_eq!(rt; statistics_without_rows(rt.alloc())?, (0, 0, (0, 0)));
    Ok(())
}

#[test]
fn texts(rt: HostRuntime) -> Result<(), Fail> {
    assert_eq!(rt; leaves_of_texts(rt.alloc())?, ([15, 31, 31], (2, 1)));
    Ok(())
}
