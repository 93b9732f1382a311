//! Compression: from a degree list to a list of few pieces, which dominates the same keys.
//!
//! In: the degree list of a column, or of some of its rows. It has one element for each different key. Out: a list of few pieces. Statistics
//! keep this list, and bounds are made from it. At accuracy K each of its elements exceeds the degree at the same rank by at most one K-th. Its
//! sum is the sum of the degrees. The elements of a run have the value of one degree, the run's head. Compression by heads is this project's own.
//! Domination is that of SafeBound (SIGMOD 2023).
//!
//! In contracts the result is `compressed` of crate `degree_sequences`, and `most_pieces` is the greatest number of its pieces.
//! `let list = compress(alloc, counts.as_slice(), Accuracy::of(1))?;` gives `list ≡ compressed 1 counts`. `compress_runs` gives the same
//! list from counts that are kept as runs.
#![tactic(auto)]

ghost use Rattle.std.specs.Prelude.{◌≡◌, ℕ, ◌+◌, ◌-◌, ◌*◌, ◌^◌, ◌<◌, ◌≤◌, List, slice_index, IfOk, length, replicate, ◌++◌, OnOk};
ghost use Rattle.std.specs.List.{All, sum};
ghost use Rattle.limits.specs.Profile.{greatest_rows};
ghost use Rattle.degree_sequences.specs.Compression.{compressed, next_head};
ghost use Rattle.degree_sequences.specs.Degrees.{degree_list};
ghost use Rattle.degree_sequences.specs.Domination.{DominatesKeys};
ghost use Rattle.degree_sequences.specs.Descending.{IsDescending};
ghost use Rattle.degree_sequences.specs.Runs.{runs};
ghost use Rattle.piece_compress.specs.BinaryDigits.{most_pieces};

use base_io::NoMemory;
use limits::Accuracy;
use piece_math::Pieces;
use std::alloc::Global;

// Equal elements at the end of the result that aren't among its pieces yet.
#[derive(Clone, Copy)]
struct Run {
    value: u64,
    count: u64,
}

/// A degree list compressed with an accuracy.
pub fn compress(alloc: Global, falling: &[u64], accuracy: Accuracy) -> Result<Pieces, NoMemory>
    requires descends { IsDescending falling.now }
    requires positive { All (λ degree. 0 < degree) falling.now }
    requires small { sum falling.now ≤ greatest_rows }
    ensures compressed { IfOk result (λ list. list ≡ compressed accuracy falling.now) }
    ensures dominates { IfOk result (λ list. (keys : List ℕ) → degree_list keys ≡ falling.now → DominatesKeys list keys) }
    ensures sum { IfOk result (λ list. sum list ≡ sum falling.now) }
    ensures near { IfOk result (λ list. (r : ℕ) → accuracy * slice_index list r ≤ (accuracy + 1) * slice_index falling.now r) }
    ensures few_pieces { IfOk result (λ list. runs list ≤ most_pieces (slice_index falling.now 0) accuracy) }
{
    let falling = Pieces::from_list(alloc, falling)?;
    compress_runs(alloc, &falling, accuracy)
}

/// A degree list that is kept as runs, compressed with an accuracy. The time depends on the number of runs, not on the number of keys.
pub fn compress_runs(
    alloc: Global,
    falling: &Pieces,
    accuracy: Accuracy,
) -> Result<Pieces, NoMemory>
    requires small { sum falling.now ≤ greatest_rows }
    ensures compressed { IfOk result (λ list. list ≡ compressed accuracy falling.now) }
    ensures dominates { IfOk result (λ list. (keys : List ℕ) → degree_list keys ≡ falling.now → DominatesKeys list keys) }
    ensures sum { IfOk result (λ list. sum list ≡ sum falling.now) }
    ensures near { IfOk result (λ list. (r : ℕ) → accuracy * slice_index list r ≤ (accuracy + 1) * slice_index falling.now r) }
    ensures few_pieces { IfOk result (λ list. runs list ≤ most_pieces (slice_index falling.now 0) accuracy) }
{
    let _ = accuracy.value();
    let runs = falling.pieces();
    let mut pieces = Pieces::empty(alloc);
    let mut head = first_degree(falling);
    let mut run = Run {
        value: head,
        count: 0,
    };
    let mut rows: u64 = 0;
    let mut covered: u64 = 0;
    for equal in runs {
        let degree = equal.value as u64;
        head = head_after(head, degree, accuracy);
        rows += degree * equal.count;
        if covered < rows {
            let times = (rows - covered).div_ceil(head);
            run = extended(&mut pieces, run, head, times)?;
            covered += head * times;
        }
    }
    if run.count > 0 {
        finish(&mut pieces, run, covered - rows)?;
    }
    Ok(pieces)
}

// The first degree of a list, or 0.
fn first_degree(falling: &Pieces) -> u64
    requires { sum falling.now ≤ greatest_rows }
    ensures { result ≡ slice_index falling.now 0 }
{
    let runs = falling.pieces();
    if runs.is_empty() {
        return 0;
    }
    runs[0].value as u64
}

// A degree far enough below the head is the next head. Otherwise the head stays.
// At accuracy K a degree is far enough below the head if K + 1 times the degree is below K times the head.
fn head_after(head: u64, degree: u64, accuracy: Accuracy) -> u64
    requires head { head ≤ greatest_rows }
    requires degree { degree ≤ head }
    ensures { result ≡ next_head accuracy head degree }
{
    let accuracy = u64::from(accuracy.value());
    if (accuracy + 1) * degree < accuracy * head {
        degree
    } else {
        head
    }
}

// The run with `times` more elements of a value. If the run has another value, it is added to the pieces, and a new run begins.
fn extended(pieces: &mut Pieces, run: Run, value: u64, times: u64) -> Result<Run, NoMemory>
    requires positive { 0 < value }
    requires lower { value ≤ run.value }
    requires descends { All (λ x. run.value ≤ x) pieces.old }
    requires room { length pieces.old + run.count + times < 2 ^ 64 }
    ensures value { IfOk result (λ longer. longer.value ≡ value) }
    ensures more { IfOk result (λ longer. times ≤ longer.count) }
    ensures before { IfOk result (λ longer. pieces.new ++ replicate (longer.count - times) longer.value ≡ pieces.old
        ++ replicate run.count run.value) }
    ensures descends { IfOk result (λ longer. All (λ x. longer.value ≤ x) pieces.new) }
{
    if run.value == value {
        return Ok(Run {
            value,
            count: run.count + times,
        });
    }
    if run.count > 0 {
        pieces.push_run(u128::from(run.value), run.count)?;
    }
    Ok(Run {
        value,
        count: times,
    })
}

// Adds the run to the end of the result, with its last element lowered by `excess`.
fn finish(pieces: &mut Pieces, run: Run, excess: u64) -> Result<(), NoMemory>
    requires some { 0 < run.count }
    requires excess { excess < run.value }
    requires descends { All (λ x. run.value ≤ x) pieces.old }
    requires room { length pieces.old + run.count < 2 ^ 64 }
    ensures { OnOk result (pieces.new ≡ (pieces.old ++ replicate (run.count - 1) run.value) ++ replicate 1 (run.value - excess)) }
{
    if run.count > 1 {
        pieces.push_run(u128::from(run.value), run.count - 1)?;
    }
    pieces.push_run(u128::from(run.value - excess), 1)
}
