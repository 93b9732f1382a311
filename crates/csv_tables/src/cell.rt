//! Numbers as cells.
ghost use Rattle.std.specs.Prelude.{◌≡◌};
ghost use Rattle.csv_tables.specs.Numbers.{bits_of, number_in};

/// The cell of a number: its 64 bits in two's complement.
#[tactic(auto, using(crate::proofs::CellFacts::cell_steps))]
pub fn cell_of(value: i64) -> u64
    ensures bits { result ≡ bits_of value }
    ensures inverse { number_in result ≡ value }
{
    value.cast_unsigned()
}

/// The number of a cell.
#[tactic(auto, using(crate::proofs::CellFacts::cell_steps))]
pub fn value_of(cell: u64) -> i64
    ensures number { result ≡ number_in cell }
    ensures inverse { bits_of result ≡ cell }
{
    cell.cast_signed()
}
