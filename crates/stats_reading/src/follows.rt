//! Tests whether a value may come next in a draft (the part of a file that is read so far).
ghost use Rattle.std.specs.Prelude.{◌≡◌, ◌≢◌, ◌-◌, ◌<◌, ◌^◌, ◌↔◌, length, sum, slice_get, All, None, Some, IsTrue, MatchOption};
ghost use Rattle.std.specs.declared.cmp.Ordering.TheVariants.{Greater};
ghost use Rattle.stats_file.specs.declared.types.Datum.{Datum as Value};
ghost use Rattle.stats_file.specs.declared.types.PairStats.{PairStats as Statistics};
ghost use Rattle.stats_file.specs.Rules.{datum_cmp};
ghost use Rattle.stats_reading.specs.Drafts.{HasSmallSums, CutFollows, FrequentFollows, HasSameFilter, IsSameRest, IsSameTotal, IsSameValue, HasSameJoined, NodeFollows, RestFollows, WholeFollows};

use crate::compare::{compare, same_list, same_total, same_value};
use crate::draft::Draft;
use piece_math::Pieces;
use stats_file::{Datum, PairStats};
use std::cmp::Ordering;

// The table's pair at this index, if there is one.
fn pair_at(draft: &Draft, place: usize) -> Option<&PairStats>
    ensures { MatchOption result (slice_get draft.now.section.pairs place ≡ None)
        (λ q. slice_get draft.now.section.pairs place ≡ Some q.now) }
{
    if place < draft.section.pairs.len() {
        Some(draft.section.pairs.get(place))
    } else {
        None
    }
}

fn agrees_with_earlier_whole(draft: &Draft, list: &Pieces) -> bool
    ensures { IsTrue result ↔ ((q : Statistics) → HasSameJoined draft.now q → q.whole ≡ list.now) }
{
    match pair_at(draft, draft.same_joined_at) {
        None => true,
        Some(earlier) => same_list(&earlier.whole, list),
    }
}

/// Whether `list` may be the list of all rows.
pub fn whole_follows(draft: &Draft, list: &Pieces) -> bool
    requires { sum list.now < 2 ^ 64 }
    ensures { IsTrue result ↔ WholeFollows draft.now list.now }
{
    list.total() == u128::from(draft.section.rows) && agrees_with_earlier_whole(draft, list)
}

// Whether `value` isn't among the frequent values so far.
fn is_new(frequent: &[(Datum, Pieces)], value: &Datum) -> bool
    ensures { IsTrue result ↔ All (λ e. e.0 ≢ value.now) frequent.now }
{
    for earlier in frequent {
        if same_value(&earlier.0, value) {
            return false;
        }
    }
    true
}

fn is_same_value(earlier: &(Datum, Pieces), value: &Datum, list: &Pieces) -> bool
    requires left { sum earlier.now.1 < 2 ^ 64 }
    requires right { sum list.now < 2 ^ 64 }
    ensures { IsTrue result ↔ ((earlier.now.0 ≡ value.now) × (sum earlier.now.1 ≡ sum list.now)) }
{
    same_value(&earlier.0, value) && same_total(&earlier.1, list)
}

// Whether `pair`, an earlier pair, has this frequent value at this index, with a list of the same sum.
fn has_value(pair: &PairStats, place: usize, value: &Datum, list: &Pieces) -> bool
    requires left { HasSmallSums pair.now }
    requires right { sum list.now < 2 ^ 64 }
    ensures { IsTrue result ↔ IsSameValue place (value.now, list.now) pair.now }
{
    if place >= pair.frequent.len() {
        return false;
    }
    is_same_value(pair.frequent.get(place), value, list)
}

fn is_alike_frequent(draft: &Draft, value: &Datum, list: &Pieces) -> bool
    requires small { All HasSmallSums draft.now.section.pairs }
    requires right { sum list.now < 2 ^ 64 }
    ensures { IsTrue result
        ↔ ((q : Statistics) → HasSameFilter draft.now q → IsSameValue (length draft.now.pair.frequent) (value.now, list.now) q) }
{
    match pair_at(draft, draft.same_filter_at) {
        None => true,
        Some(earlier) => has_value(earlier, draft.pair.frequent.len(), value, list),
    }
}

/// Whether a value with its list may be the next frequent value.
pub fn frequent_follows(draft: &Draft, value: &Datum, list: &Pieces) -> bool
    requires small { All HasSmallSums draft.now.section.pairs }
    requires right { sum list.now < 2 ^ 64 }
    ensures { IsTrue result ↔ FrequentFollows draft.now (value.now, list.now) }
{
    draft.pair.frequent.len() < 32
        && is_new(draft.pair.frequent.as_slice(), value)
        && is_alike_frequent(draft, value, list)
}

fn has_rest(pair: &PairStats, count: usize, list: &Pieces) -> bool
    requires left { HasSmallSums pair.now }
    requires right { sum list.now < 2 ^ 64 }
    ensures { IsTrue result ↔ IsSameRest count list.now pair.now }
{
    pair.frequent.len() == count && same_total(&pair.rest, list)
}

/// Whether a list may be the list of the other values (those that aren't frequent).
pub fn rest_follows(draft: &Draft, list: &Pieces) -> bool
    requires small { All HasSmallSums draft.now.section.pairs }
    requires right { sum list.now < 2 ^ 64 }
    ensures { IsTrue result ↔ RestFollows draft.now list.now }
{
    match pair_at(draft, draft.same_filter_at) {
        None => true,
        Some(earlier) => has_rest(earlier, draft.pair.frequent.len(), list),
    }
}

// Whether `value` isn't below the last cut.
fn is_in_order(cuts: &[Datum], value: &Datum) -> bool
    ensures { IsTrue result
        ↔ ((last : Value) → slice_get cuts.now (length cuts.now - 1) ≡ Some last → datum_cmp last value.now ≢ Greater) }
{
    if cuts.is_empty() {
        return true;
    }
    !matches!(compare(&cuts[cuts.len() - 1], value), Ordering::Greater)
}

fn has_cut(pair: &PairStats, place: usize, value: &Datum) -> bool
    ensures { IsTrue result ↔ (slice_get pair.now.cuts place ≡ Some value.now) }
{
    if place >= pair.cuts.len() {
        return false;
    }
    same_value(pair.cuts.get(place), value)
}

fn is_alike_cut(draft: &Draft, value: &Datum) -> bool
    ensures { IsTrue result
        ↔ ((q : Statistics) → HasSameFilter draft.now q → slice_get q.cuts (length draft.now.pair.cuts) ≡ Some value.now) }
{
    match pair_at(draft, draft.same_filter_at) {
        None => true,
        Some(earlier) => has_cut(earlier, draft.pair.cuts.len(), value),
    }
}

/// Whether a value may be the next cut.
pub fn cut_follows(draft: &Draft, value: &Datum) -> bool
    ensures { IsTrue result ↔ CutFollows draft.now value.now }
{
    draft.section.rows > 0
        && draft.pair.cuts.len() < 32
        && is_in_order(draft.pair.cuts.as_slice(), value)
        && is_alike_cut(draft, value)
}

fn has_node(pair: &PairStats, place: usize, node: &Pieces) -> bool
    requires left { HasSmallSums pair.now }
    requires right { sum node.now < 2 ^ 64 }
    ensures { IsTrue result ↔ IsSameTotal place node.now pair.now }
{
    if place >= pair.nodes.len() {
        return false;
    }
    same_total(pair.nodes.get(place), node)
}

fn is_alike_node(draft: &Draft, node: &Pieces) -> bool
    requires small { All HasSmallSums draft.now.section.pairs }
    requires right { sum node.now < 2 ^ 64 }
    ensures { IsTrue result ↔ ((q : Statistics) → HasSameFilter draft.now q → IsSameTotal (length draft.now.pair.nodes) node.now q) }
{
    match pair_at(draft, draft.same_filter_at) {
        None => true,
        Some(earlier) => has_node(earlier, draft.pair.nodes.len(), node),
    }
}

/// Whether a list may be the next node.
pub fn node_follows(draft: &Draft, node: &Pieces) -> bool
    requires small { All HasSmallSums draft.now.section.pairs }
    requires right { sum node.now < 2 ^ 64 }
    ensures { IsTrue result ↔ NodeFollows draft.now node.now }
{
    draft.section.rows > 0
        && draft.pair.cuts.len() == 32
        && draft.pair.nodes.len() < 63
        && is_alike_node(draft, node)
}
