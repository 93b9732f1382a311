//! Turns cells into values of a statistics file.
ghost use Rattle.std.specs.Prelude.{◌≡◌, All, IfOk, map};
ghost use Rattle.csv_tables.specs.Cells.{IsCell, value_of_cell};
ghost use Rattle.stats_file_of_query.specs.Data.{datum_of};
ghost use Rattle.stats_file_of_query.specs.Pairs.{frequent_in};

use base_io::{Name, NoMemory, Seq};
use column_stats::FrequentList;
use csv_tables::{Pool, value_of};
use piece_math::Pieces;
use schema_types::Kind;
use stats_file::Datum;
use std::alloc::Global;

// The value of a cell of a column of this kind.
fn datum_of(alloc: Global, pool: &Pool, kind: Kind, cell: u64) -> Result<Datum, NoMemory>
    requires { IsCell pool.now kind cell }
    ensures { IfOk result (λ datum. datum ≡ datum_of (value_of_cell pool.now kind cell)) }
{
    match kind {
        Kind::Int => Ok(Datum::Int(value_of(cell))),
        Kind::Text(_) => {
            prove!(cell < pool.len() as u64);
            let text = Name::from_str(alloc, pool.text(cell as u32))?;
            Ok(Datum::Text(text))
        }
    }
}

/// The frequent values of a column of this kind, each with its list.
pub(crate) fn frequent_values(
    alloc: Global,
    pool: &Pool,
    kind: Kind,
    frequent: &[FrequentList],
) -> Result<Seq<(Datum, Pieces)>, NoMemory>
    requires { All (λ found. IsCell pool.now kind found.cell) frequent.now }
    ensures { IfOk result (λ values. values ≡ map (frequent_in (λ cell. datum_of (value_of_cell pool.now kind cell))) frequent.now) }
{
    let mut values = Seq::new(alloc);
    for found in frequent {
        let value = datum_of(alloc, pool, kind, found.cell)?;
        let list = found.list.copy()?;
        values.push((value, list))?;
    }
    Ok(values)
}

/// The values of the cuts of a column of this kind.
pub(crate) fn cut_values(
    alloc: Global,
    pool: &Pool,
    kind: Kind,
    cuts: &[u64],
) -> Result<Seq<Datum>, NoMemory>
    requires { All (IsCell pool.now kind) cuts.now }
    ensures { IfOk result (λ values. values ≡ map (λ cell. datum_of (value_of_cell pool.now kind cell)) cuts.now) }
{
    let mut values = Seq::new(alloc);
    for cell in cuts {
        values.push(datum_of(alloc, pool, kind, *cell)?)?;
    }
    Ok(values)
}
