//! The lists and leaves that the statistics of a filter column give. No call takes memory.
ghost use Rattle.std.specs.Prelude.{◌≡◌, ◌<◌, ℕ, List, IfSome};
ghost use Rattle.csv_tables.specs.Values.{Int, Text};
ghost use Rattle.column_stats.specs.Stats.{IsValid, leaf_by_cuts, list_for_range, list_for_value};

use column_stats::{ColumnStats, place_of_node};
use cond_stats::{leaf_of_int, leaf_of_text};
use csv_tables::{Pool, cell_of};
use piece_math::Pieces;

/// The list of a value, which is given by its cell: the value's own list if it is frequent, otherwise the rest list. `None` stands for a text
/// that the pool doesn't have.
pub fn for_equal(stats: &ColumnStats, cell: Option<u64>) -> &Pieces
    ensures { result.now ≡ list_for_value stats.now cell }
{
    let Some(value) = cell else {
        return &stats.rest;
    };
    for frequent in stats.frequent.as_slice() {
        if frequent.cell == value {
            return &frequent.list;
        }
    }
    &stats.rest
}

/// The list of a range, by the leaves of its ends: the list of the smallest node that holds both leaves. Either leaf may be the greater one. `None`
/// as the low end is leaf 0; as the high end it is leaf 31. If the column has no rows, the list is empty.
pub fn for_range(stats: &ColumnStats, low: Option<u8>, high: Option<u8>) -> &Pieces
    requires valid { IsValid stats.now }
    requires low { IfSome low (λ leaf. leaf < 32) }
    requires high { IfSome high (λ leaf. leaf < 32) }
    ensures { result.now ≡ list_for_range stats.now low high }
{
    let low = low.unwrap_or(0);
    let high = high.unwrap_or(31);
    let place = place_of_node(low, high);
    if stats.rows == 0 {
        return &stats.whole;
    }
    stats.nodes.get(usize::from(place))
}

/// The leaf of a number: the last leaf whose cut is at most the number, or 0 if there is no such cut. In a column of texts there is no such cut.
pub fn leaf_int(stats: &ColumnStats, value: i64) -> u8
    requires { IsValid stats.now }
    ensures leaf { (texts : List (List ℕ)) → result ≡ leaf_by_cuts texts stats.now (Int value) }
    ensures below { result < 32 }
{
    leaf_of_int(stats.kind, stats.cuts.as_slice(), cell_of(value))
}

/// The leaf of a text, which need not be in the pool. It is the last leaf whose cut is at most the text, or 0 if there is no such cut. `pool` has
/// the texts of the cuts. In a column of numbers every cut is at most a text.
pub fn leaf_text(stats: &ColumnStats, pool: &Pool, text: &str) -> u8
    requires { IsValid stats.now }
    ensures leaf { result ≡ leaf_by_cuts pool.now stats.now (Text text.now) }
    ensures below { result < 32 }
{
    leaf_of_text(stats.kind, pool, stats.cuts.as_slice(), text)
}
