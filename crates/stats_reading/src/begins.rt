//! Lines that begin a table or a pair of columns.
ghost use Rattle.std.specs.Prelude.{◌≡◌, ◌<◌, ◌≤◌, ◌↔◌, length, All, AllPairs, Some, IsTrue};
ghost use Rattle.schema_types.specs.declared.types.Table.{Table as Declared};
ghost use Rattle.schema_types.specs.Validity.{IsValid, IsValidTable};
ghost use Rattle.stats_file.specs.declared.types.TableStats.{TableStats as Section};
ghost use Rattle.stats_file.specs.Lines.{hex_text};
ghost use Rattle.stats_file.specs.Rules.{ComesBefore};
ghost use Rattle.stats_reading.specs.Drafts.{empty_pair, empty_section, pair_words, table_words, BeginsPair, IsNamed, IsPlaceOf, MayBePair, MayBeTable, PairsAscend, TablesAscend, ReadsValue};

use crate::draft::{Draft, new_pair, new_section};
use crate::fault::Fault;
use limits::MOST_ROWS;
use schema_types::{Schema, Table};
use stats_file::{PairStats, TableStats};
use stats_words::{is_hex_of, number};
use std::alloc::Global;

fn is_named(table: &Table, word: &[u8]) -> bool
    ensures { IsTrue result ↔ (word.now ≡ hex_text table.now.name) }
{
    is_hex_of(word, table.name.as_str().as_bytes())
}

fn table_place(schema: &Schema, word: &[u8]) -> Option<usize>
    ensures { IsNamed (λ (t : Declared). t.name) schema.now.tables word.now result }
{
    for i in 0..schema.tables.len() {
        if is_named(schema.tables.get(i), word) {
            return Some(i);
        }
    }
    None
}

fn column_place(table: &Table, word: &[u8]) -> Option<usize>
    ensures { IsNamed (λ c. c.name) table.now.columns word.now result }
{
    for i in 0..table.columns.len() {
        if is_hex_of(word, table.columns.get(i).name.as_str().as_bytes()) {
            return Some(i);
        }
    }
    None
}

fn stands_before(earlier: &PairStats, filter: u32, joined: u32) -> bool
    ensures { IsTrue result ↔ ComesBefore earlier.now (empty_pair filter joined) }
{
    earlier.filter < filter || (earlier.filter == filter && earlier.joined < joined)
}

// Whether a pair of these columns comes after all of `pairs`. They ascend, so a comparison with the last pair is enough.
fn is_later(pairs: &[PairStats], filter: u32, joined: u32) -> bool
    requires { AllPairs ComesBefore pairs.now }
    ensures { IsTrue result ↔ All (λ q. ComesBefore q (empty_pair filter joined)) pairs.now }
{
    if pairs.is_empty() {
        return true;
    }
    stands_before(&pairs[pairs.len() - 1], filter, joined)
}

fn is_later_table(tables: &[TableStats], place: u32) -> bool
    requires { AllPairs (λ (a b : Section). a.table < b.table) tables.now }
    ensures { IsTrue result ↔ All (λ t. t.table < place) tables.now }
{
    if tables.is_empty() {
        return true;
    }
    tables[tables.len() - 1].table < place
}

// The index of a pair with this filter column, or the length of `pairs` if no pair has it. No pair has a later filter column, so only the last pair
// is looked at.
fn index_of_filter(pairs: &[PairStats], filter: u32) -> usize
    requires ascend { AllPairs ComesBefore pairs.now }
    requires none_later { All (λ q. q.filter ≤ filter) pairs.now }
    ensures { IsPlaceOf (λ q. q.filter) filter pairs.now result }
{
    if pairs.is_empty() {
        return 0;
    }
    let last = pairs.len() - 1;
    if pairs[last].filter == filter {
        last
    } else {
        pairs.len()
    }
}

fn place_of_joined(pairs: &[PairStats], joined: u32) -> usize
    ensures { IsPlaceOf (λ q. q.joined) joined pairs.now result }
{
    for i in 0..pairs.len() {
        if pairs[i].joined == joined {
            return i;
        }
    }
    pairs.len()
}

fn begin_table(alloc: Global, draft: &mut Draft, place: u32, rows: u32)
    ensures { draft.new ≡ record draft.old { section = empty_section place rows } }
{
    draft.section = new_section(alloc, place, rows);
}

/// Begins a table in the draft: the table of the schema whose name `name` spells, with this number of rows.
pub fn take_table(
    alloc: Global,
    schema: &Schema,
    draft: &mut Draft,
    name: &[u8],
    rows: &[u8],
) -> Result<(), Fault>
    requires valid { IsValid schema.now }
    requires ascend { TablesAscend draft.old }
    ensures { ReadsValue table_words (MayBeTable schema.now draft.old)
        (λ v. draft.new ≡ record draft.old { section = empty_section v.place v.rows }) (name.now, rows.now) result }
{
    let Some(place) = table_place(schema, name) else {
        return Err(Fault::Rule);
    };
    let Some(rows) = number(rows, u64::from(MOST_ROWS)) else {
        return Err(Fault::Rule);
    };
    if !is_later_table(draft.tables.as_slice(), place as u32) {
        return Err(Fault::Rule);
    }
    begin_table(alloc, draft, place as u32, rows as u32);
    Ok(())
}

fn begin_pair(alloc: Global, table: &Table, draft: &mut Draft, filter: u32, joined: u32)
    requires within { filter < length table.now.columns }
    requires ascend { PairsAscend draft.old }
    requires later { All (λ q. q.filter ≤ filter) draft.old.section.pairs }
    ensures { BeginsPair table.now draft.old draft.new filter joined }
{
    draft.same_filter_at = index_of_filter(draft.section.pairs.as_slice(), filter);
    draft.same_joined_at = place_of_joined(draft.section.pairs.as_slice(), joined);
    draft.kind = table.columns.get(filter as usize).kind;
    draft.pair = new_pair(alloc, filter, joined);
}

/// Begins a pair in the draft, of the two columns that the words spell.
pub fn take_pair(
    alloc: Global,
    table: &Table,
    draft: &mut Draft,
    filter: &[u8],
    joined: &[u8],
) -> Result<(), Fault>
    requires valid { IsValidTable table.now }
    requires ascend { PairsAscend draft.old }
    ensures { ReadsValue (pair_words table.now) (λ c. MayBePair table.now draft.old c.0 c.1)
        (λ c. BeginsPair table.now draft.old draft.new c.0 c.1) (filter.now, joined.now) result }
{
    let Some(filter) = column_place(table, filter) else {
        return Err(Fault::Rule);
    };
    let Some(joined) = column_place(table, joined) else {
        return Err(Fault::Rule);
    };
    if !is_later(draft.section.pairs.as_slice(), filter as u32, joined as u32) {
        return Err(Fault::Rule);
    }
    begin_pair(alloc, table, draft, filter as u32, joined as u32);
    Ok(())
}
