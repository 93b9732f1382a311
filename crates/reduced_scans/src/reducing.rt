//! Reduces the scans of a query: by semi-joins, and then by a worklist.
ghost use Rattle.std.specs.Prelude.{◌≡◌, ◌+◌, ◌*◌, ◌<◌, ◌≤◌, ℕ, All, Bool, IfOk, length, vec_capacity};
ghost use Rattle.limits.specs.Profile.{most_conjuncts, most_entries, most_rows};
ghost use Rattle.berge_tree.specs.declared.edges.Edge.{Edge};
ghost use Rattle.counted_sets.specs.Sets.{marked};
ghost use Rattle.join_graph.specs.Conjuncts.{equalities_of};
ghost use Rattle.sql_meaning.specs.Databases.{IsDatabaseOf};
ghost use Rattle.sql_meaning.specs.Tables.{tables_of};
ghost use Rattle.join_steps.specs.Lists.{scan_of, list_at, lists_of};
ghost use Rattle.level_bounds.specs.Keys.{cell_at};
ghost use Rattle.reduced_scans.specs.Families.{AreAscending, IsReduced};
ghost use Rattle.reduced_scans.specs.Lists.{AreRowLists, HaveNoSpare, JoinsColumns};
ghost use Rattle.reduced_scans.specs.Scans.{AreReducedScans};
ghost use Rattle.reduced_scans.specs.Wiring.{first_item, marked_family, marked_rows, HoldsByKey};

use crate::equality_values::EqualityValues;
use crate::semi_joins::semi_join_all;
use crate::wiring::{add_all_uses, count_uses, first_item};
use base_io::NoMemory;
use berge_tree::Edge;
use counted_sets::reduce;
use csv_tables::Database;
use join_steps::recall_texts_are_different;
use query_types::Query;
use row_buf::RowBuf;
use std::alloc::Global;

// Marks the rows that are kept. The marks are in the order of the lists, and in a list in the order of its rows. The numbered values and their uses
// are freed.
fn marks_of(
    alloc: Global,
    db: &Database,
    scans: &[RowBuf<u32>],
    equalities: &[Edge],
) -> Result<RowBuf<bool>, NoMemory>
    requires lists { AreRowLists db.now scans.now }
    requires columns { All (JoinsColumns db.now) equalities.now }
    requires few { length equalities.now ≤ most_conjuncts }
    ensures length { IfOk result (λ marks. length marks.items ≡ first_item (lists_of scans.now) (length scans.now)) }
    ensures reduced { IfOk result (λ marks. (equal : Edge → ℕ → ℕ → Bool)
        → HoldsByKey (lists_of scans.now) equalities.now (cell_at db.now) equal
        → AreAscending (lists_of scans.now)
        → IsReduced (lists_of scans.now) equalities.now equal (marked_family (marked marks.items) 0 (lists_of scans.now))) }
{
    let mut known_values = EqualityValues::new(alloc);
    let mut uses = RowBuf::new(alloc);
    uses.reserve(count_uses(scans, equalities))?;
    add_all_uses(db, scans, equalities, &mut known_values, &mut uses)?;
    let items = first_item(scans, scans.len());
    let slots = 2 * known_values.len() as u32;
    let marks = reduce(alloc, items, slots, uses.as_slice())?;
    Ok(marks)
}

// Counts the marked rows of a list. `first` is the index of the mark of the list's first row.
fn marked_count(list: &[u32], marks: &RowBuf<bool>, first: u32) -> u64
    requires marks { first + length list.now ≤ length marks.now.items }
    requires few { length marks.now.items ≤ most_entries * most_rows }
    ensures { result ≡ length (marked_rows (marked marks.now.items) first list.now) }
{
    let mut count = 0;
    'rows: for at in 0..list.len() {
        let stays = marks.get(first + at as u32);
        if stays {
            count += 1;
        }
    }
    count
}

// The marked rows of a list, in a buffer whose capacity is their number.
fn marked_rows(
    alloc: Global,
    list: &[u32],
    marks: &RowBuf<bool>,
    first: u32,
) -> Result<RowBuf<u32>, NoMemory>
    requires marks { first + length list.now ≤ length marks.now.items }
    requires few { length marks.now.items ≤ most_entries * most_rows }
    ensures rows { IfOk result (λ rows. rows.items ≡ marked_rows (marked marks.now.items) first list.now) }
    ensures no_spare { IfOk result (λ rows. rows.spare ≡ 0) }
{
    let mut rows = RowBuf::new(alloc);
    rows.reserve(marked_count(list, marks, first))?;
    'rows: for at in 0..list.len() {
        let stays = marks.get(first + at as u32);
        if stays {
            rows.push(list[at]);
        }
    }
    Ok(rows)
}

// The marked rows of each list.
fn marked_lists(
    alloc: Global,
    scans: &[RowBuf<u32>],
    marks: &RowBuf<bool>,
) -> Result<Vec<RowBuf<u32>>, NoMemory>
    requires few { length scans.now ≤ most_entries }
    requires sizes { (k : ℕ) → length (list_at (lists_of scans.now) k) ≤ most_rows }
    requires marks { length marks.now.items ≡ first_item (lists_of scans.now) (length scans.now) }
    requires few_marks { length marks.now.items ≤ most_entries * most_rows }
    ensures lists { IfOk result (λ lists. lists_of lists.items ≡ marked_family (marked marks.now.items) 0 (lists_of scans.now)) }
    ensures no_spare { IfOk result (λ lists. HaveNoSpare lists.items) }
    ensures capacity { IfOk result (λ lists. vec_capacity lists ≡ length scans.now) }
{
    let mut lists = Vec::with_capacity(alloc, scans.len())?;
    'lists: for entry in 0..scans.len() {
        let first = first_item(scans, entry);
        let rows = marked_rows(alloc, scans[entry].as_slice(), marks, first)?;
        lists.push_reserved(rows);
    }
    Ok(lists)
}

/// Reduces the scans of a query. The result has one list for each FROM entry, in file order. These are the largest lists of scanned rows in which
/// each row has a match across each equality of its entry. A match is a row with the same value in the list of the other entry.
///
/// `scans` has the scan of each FROM entry, and `equalities` has the equalities that `split` of join_graph finds. The call has two steps:
///
/// 1. Semi-joins along the equalities, from the first to the last and back, remove rows whose value the other side doesn't have. A semi-join
///    looks values up in marks, one for each number in the range of the other side's values. Where that range is too long, it removes nothing.
/// 2. The remaining values get numbers, by one hash of each cell. Then a worklist removes rows without a match, until nothing changes.
///
/// Time and memory are on average linear in the number of rows times the number of their equalities. All memory except the result's is freed before
/// the call returns. The result and its lists have no spare capacity.
pub fn reduce_scans(
    alloc: Global,
    query: &Query,
    equalities: &[Edge],
    db: &Database,
    scans: &[RowBuf<u32>],
) -> Result<Vec<RowBuf<u32>>, NoMemory>
    requires equalities { equalities.now ≡ equalities_of query.now }
    requires database { IsDatabaseOf query.now db.now }
    requires count { length scans.now ≡ length query.now.from }
    requires scans { (entry : ℕ) → entry < length query.now.from → list_at (lists_of scans.now) entry ≡ scan_of query.now db.now entry }
    ensures reduced { IfOk result (λ reduced. AreReducedScans query.now (tables_of db.now) (lists_of reduced.items)) }
    ensures no_spare { IfOk result (λ reduced. HaveNoSpare reduced.items) }
    ensures capacity { IfOk result (λ reduced. vec_capacity reduced ≡ length query.now.from) }
{
    recall_texts_are_different(&db.pool);
    let lists = semi_join_all(alloc, db, scans, equalities)?;
    let remaining = lists.as_slice();
    let marks = marks_of(alloc, db, remaining, equalities)?;
    let reduced = marked_lists(alloc, remaining, &marks)?;
    Ok(reduced)
}
