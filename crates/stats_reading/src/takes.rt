//! Reads the words of a line into a draft.
ghost use Rattle.std.specs.Prelude.{◌≡◌, [], All};
ghost use Rattle.stats_reading.specs.Drafts.{frequent_words, list_word, number_word, value_word, with_cut, with_frequent, with_node, with_rest, with_whole, HasSmallSums, MayBeAccuracy, MayBeCut, MayBeFrequent, MayBeNode, MayBeRest, MayBeWhole, ReadsValue};

use crate::draft::Draft;
use crate::fault::Fault;
use crate::follows::{cut_follows, frequent_follows, node_follows, rest_follows, whole_follows};
use limits::{LEAST_ACCURACY, MOST_ACCURACY};
use stats_words::{datum, list, number};
use std::alloc::Global;

/// Reads the accuracy.
pub fn take_accuracy(draft: &mut Draft, word: &[u8]) -> Result<(), Fault>
    ensures { ReadsValue number_word MayBeAccuracy (λ k. draft.new ≡ record draft.old { accuracy = k }) (word.now, []) result }
{
    match number(word, u64::from(MOST_ACCURACY)) {
        Some(accuracy) if accuracy >= u64::from(LEAST_ACCURACY) => {
            draft.accuracy = accuracy as u8;
            Ok(())
        }
        _ => Err(Fault::Rule),
    }
}

/// Reads the list of all rows.
pub fn take_whole(alloc: Global, draft: &mut Draft, word: &[u8]) -> Result<(), Fault>
    ensures { ReadsValue list_word (MayBeWhole draft.old) (λ l. draft.new ≡ with_whole draft.old l) (word.now, []) result }
{
    let Some(whole) = list(alloc, word, draft.section.rows)? else {
        return Err(Fault::Rule);
    };
    if !whole_follows(draft, &whole) {
        return Err(Fault::Rule);
    }
    draft.pair.whole = whole;
    Ok(())
}

/// Reads a frequent value and its list.
pub fn take_frequent(
    alloc: Global,
    draft: &mut Draft,
    value: &[u8],
    word: &[u8],
) -> Result<(), Fault>
    requires { All HasSmallSums draft.old.section.pairs }
    ensures { ReadsValue frequent_words (MayBeFrequent draft.old) (λ f. draft.new ≡ with_frequent draft.old f) (value.now, word.now) result }
{
    let Some(value) = datum(alloc, draft.kind, value)? else {
        return Err(Fault::Rule);
    };
    let Some(list) = list(alloc, word, draft.section.rows)? else {
        return Err(Fault::Rule);
    };
    if !frequent_follows(draft, &value, &list) {
        return Err(Fault::Rule);
    }
    draft.pair.frequent.push((value, list))?;
    Ok(())
}

/// Reads the list of the other values (those that aren't frequent).
pub fn take_rest(alloc: Global, draft: &mut Draft, word: &[u8]) -> Result<(), Fault>
    requires { All HasSmallSums draft.old.section.pairs }
    ensures { ReadsValue list_word (MayBeRest draft.old) (λ l. draft.new ≡ with_rest draft.old l) (word.now, []) result }
{
    let Some(rest) = list(alloc, word, draft.section.rows)? else {
        return Err(Fault::Rule);
    };
    if !rest_follows(draft, &rest) {
        return Err(Fault::Rule);
    }
    draft.pair.rest = rest;
    Ok(())
}

/// Reads a cut.
pub fn take_cut(alloc: Global, draft: &mut Draft, word: &[u8]) -> Result<(), Fault>
    ensures { ReadsValue value_word (MayBeCut draft.old) (λ v. draft.new ≡ with_cut draft.old v) (word.now, []) result }
{
    let Some(value) = datum(alloc, draft.kind, word)? else {
        return Err(Fault::Rule);
    };
    if !cut_follows(draft, &value) {
        return Err(Fault::Rule);
    }
    draft.pair.cuts.push(value)?;
    Ok(())
}

/// Reads a node.
pub fn take_node(alloc: Global, draft: &mut Draft, word: &[u8]) -> Result<(), Fault>
    requires { All HasSmallSums draft.old.section.pairs }
    ensures { ReadsValue list_word (MayBeNode draft.old) (λ l. draft.new ≡ with_node draft.old l) (word.now, []) result }
{
    let Some(node) = list(alloc, word, draft.section.rows)? else {
        return Err(Fault::Rule);
    };
    if !node_follows(draft, &node) {
        return Err(Fault::Rule);
    }
    draft.pair.nodes.push(node)?;
    Ok(())
}
