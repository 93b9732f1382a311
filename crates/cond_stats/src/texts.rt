//! Numbers the rows of a text column in the order of their texts. The different cells are sorted by their texts once. A row then looks up the
//! number of its cell, and no text is compared for it.
ghost use Rattle.std.specs.Prelude.{◌≡◌, map, All, IfOk};
ghost use Rattle.degree_sequences.specs.Degrees.{different};
ghost use Rattle.cond_stats.specs.Texts.{AreByText, IsTextOf, rank_or_zero};

use crate::cut_leaves::text_at;
use base_io::NoMemory;
use csv_tables::{Pool, compare_texts};
use indexmap::IndexSet;
use std::alloc::Global;

/// A cell, and the text that it stands for.
#[derive(Clone, Copy, Debug)]
pub(crate) struct Text<'a> {
    pub cell: u64,
    pub text: &'a str,
}

/// The different cells of a column, in the order of their texts by code points. The index of a cell is its rank.
pub(crate) fn text_numbers(
    alloc: Global,
    pool: &Pool,
    cells: &[u64],
) -> Result<IndexSet<u64>, NoMemory>
    ensures { IfOk result (λ text_numbers. AreByText pool.now (different cells.now) text_numbers.keys) }
{
    let first_seen = different_cells(alloc, cells)?;
    let ordered = cells_by_text(alloc, pool, first_seen.as_slice())?;
    different_cells(alloc, ordered.as_slice())
}

// The different cells, in the order in which they first occur.
fn different_cells(alloc: Global, cells: &[u64]) -> Result<IndexSet<u64>, NoMemory>
    ensures { IfOk result (λ set. set.keys ≡ different cells.now) }
{
    let mut set: IndexSet<u64> = IndexSet::new(alloc);
    for cell in cells {
        set.insert(*cell)?;
    }
    Ok(set)
}

// The cells in the order of their texts.
fn cells_by_text(alloc: Global, pool: &Pool, cells: &[u64]) -> Result<Vec<u64>, NoMemory>
    ensures { IfOk result (λ ordered. AreByText pool.now cells.now ordered.items) }
{
    let mut texts = texts_of(alloc, pool, cells)?;
    texts.sort_unstable_by(|a, b| compare_texts(a.text, b.text));
    cells_of(alloc, texts.as_slice())
}

// Each cell with its text.
fn texts_of<'a>(alloc: Global, pool: &'a Pool, cells: &[u64]) -> Result<Vec<Text<'a>>, NoMemory>
    ensures cells { IfOk result (λ texts. map (λ text. text.cell) texts.items ≡ cells.now) }
    ensures texts { IfOk result (λ texts. All (λ text. IsTextOf pool.now text.cell text.text.now) texts.items) }
{
    let mut texts = Vec::with_capacity(alloc, cells.len())?;
    for cell in cells {
        texts.push(Text {
            cell: *cell,
            text: text_at(pool, *cell),
        })?;
    }
    Ok(texts)
}

// The cells without their texts.
fn cells_of(alloc: Global, texts: &[Text<'_>]) -> Result<Vec<u64>, NoMemory>
    ensures { IfOk result (λ cells. cells.items ≡ map (λ text. text.cell) texts.now) }
{
    Ok(texts.iter().map(|text| text.cell).collect(alloc)?)
}

/// The rank of each cell, in the order of the cells. A cell without a rank gets 0.
pub(crate) fn numbered_by_rank(
    alloc: Global,
    text_numbers: &IndexSet<u64>,
    cells: &[u64],
) -> Result<Vec<u64>, NoMemory>
    ensures { IfOk result (λ numbers. numbers.items ≡ map (rank_or_zero text_numbers.now.keys) cells.now) }
{
    let mut numbers = Vec::with_capacity(alloc, cells.len())?;
    for cell in cells {
        numbers.push(rank_of(text_numbers, *cell))?;
    }
    Ok(numbers)
}

// The rank of a cell, or 0 if the cell has no rank.
fn rank_of(text_numbers: &IndexSet<u64>, cell: u64) -> u64
    ensures { result ≡ rank_or_zero text_numbers.now.keys cell }
{
    match text_numbers.get_index_of(&cell) {
        Some(rank) => rank as u64,
        None => 0,
    }
}
