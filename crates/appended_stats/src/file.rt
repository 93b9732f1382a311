//! Makes the statistics file after rows were appended to one of its tables.
ghost use Rattle.std.specs.Prelude.{◌≡◌, ◌+◌, All, IfOk, map};
ghost use Rattle.csv_tables.specs.Cells.{rows_of_cells};
ghost use Rattle.sql_meaning.specs.Databases.{AreCells};
ghost use Rattle.stats_file.specs.Rules.{KeepsRules};
ghost use Rattle.appended_stats.specs.Appended.{file_after};
ghost use Rattle.appended_stats.specs.Cells.{section_after_by_cells, pair_by_cells, section_by_cells};
ghost use Rattle.appended_stats.specs.Conditions.{MayAppend, MayGrow, MayGrowWhere, SectionMayGrow};

use crate::pair::pair_after;
use base_io::{NoMemory, Seq};
use csv_tables::{Cells, Pool};
use limits::Accuracy;
use piece_math::Pieces;
use schema_types::Schema;
use stats_file::{PairStats, StatsFile, TableStats};
use std::alloc::Global;

// A placeholder for a pair while the pair is changed. It takes no memory.
fn no_pair(alloc: Global) -> PairStats {
    PairStats {
        filter: 0,
        joined: 0,
        whole: Pieces::empty(alloc),
        frequent: Seq::new(alloc),
        rest: Pieces::empty(alloc),
        cuts: Seq::new(alloc),
        nodes: Seq::new(alloc),
    }
}

// The pairs of a section after the append. The section's table had `before` rows.
fn pairs_after(
    alloc: Global,
    pairs: Seq<PairStats>,
    before: u32,
    pool: &Pool,
    cells: &Cells,
    accuracy: Accuracy,
) -> Result<Seq<PairStats>, NoMemory>
    requires cells { AreCells pool.now cells.now }
    requires pairs { All (MayGrow cells.now before) pairs }
    ensures { IfOk result (λ after. after ≡ map (pair_by_cells pool.now cells.now accuracy before) pairs) }
{
    let mut after = pairs;
    for i in 0..after.len() {
        let pair = after.replace(i, no_pair(alloc));
        let grown = pair_after(alloc, pair, before, pool, cells, accuracy)?;
        let _ = after.replace(i, grown);
    }
    Ok(after)
}

// The section of the table after the append.
fn section_after(
    alloc: Global,
    section: TableStats,
    pool: &Pool,
    cells: &Cells,
    accuracy: Accuracy,
) -> Result<TableStats, NoMemory>
    requires cells { AreCells pool.now cells.now }
    requires section { SectionMayGrow cells.now section }
    ensures { IfOk result (λ after. after ≡ section_by_cells pool.now cells.now accuracy section) }
{
    let TableStats { table, rows, pairs } = section;
    let pairs = pairs_after(alloc, pairs, rows, pool, cells, accuracy)?;
    Ok(TableStats {
        table,
        rows: rows + cells.rows,
        pairs,
    })
}

// All sections after the append: the table's section has grown, and the others are unchanged.
fn sections_after(
    alloc: Global,
    sections: Seq<TableStats>,
    table: u32,
    pool: &Pool,
    cells: &Cells,
    accuracy: Accuracy,
) -> Result<Seq<TableStats>, NoMemory>
    requires cells { AreCells pool.now cells.now }
    requires sections { All (MayGrowWhere table cells.now) sections }
    ensures { IfOk result (λ after. after ≡ map (section_after_by_cells pool.now cells.now accuracy table) sections) }
{
    let mut after = sections;
    for i in 0..after.len() {
        if after.get(i).table == table {
            let none = TableStats {
                table,
                rows: 0,
                pairs: Seq::new(alloc),
            };
            let section = after.replace(i, none);
            let grown = section_after(alloc, section, pool, cells, accuracy)?;
            let _ = after.replace(i, grown);
        }
    }
    Ok(after)
}

/// The statistics file after rows were appended to a table of its schema. In that table's section the number of rows grows. To each list of the
/// section, the compressed list of those new rows that it counts is added rank by rank. Cuts and frequent values stay. A table that had no rows gets
/// the statistics of the new rows. All other sections stay. If memory runs out, the old file is lost too.
pub fn append_rows(
    alloc: Global,
    _schema: &Schema,
    file: StatsFile,
    table: u32,
    cells: &Cells,
    pool: &Pool,
) -> Result<StatsFile, NoMemory>
    requires { MayAppend _schema.now file table pool.now cells.now }
    ensures file { IfOk result (λ after. after ≡ file_after file table (rows_of_cells pool.now cells.now)) }
    // the new file keeps the rules, so `write_stats` may write it
    ensures rules { IfOk result (KeepsRules _schema.now) }
{
    let StatsFile { accuracy, tables } = file;
    let tables = sections_after(alloc, tables, table, pool, cells, Accuracy::of(accuracy))?;
    Ok(StatsFile { accuracy, tables })
}
