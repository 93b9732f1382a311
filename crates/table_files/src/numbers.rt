//! The tables that FROM names, and the index of each entry's table among them.
ghost use Rattle.std.specs.Prelude.{◌≡◌, ◌<◌, ◌^◌, ◌==◌, [], ◌∷◌, ◌++◌, if◌then◌else◌, length, map, IfOk, OnOk};
ghost use Rattle.table_files.specs.Stage.{numbers_of, index_of as place_in, tables_of_query};

use base_io::{NoMemory, Seq};
use query_types::Source;
use std::alloc::Global;

// The index of a number, or the list's length if the number isn't there. The list has one number for each table of a query, so it has at most twelve
// numbers.
fn index_of(numbers: &[u32], number: u32) -> usize
    ensures { result ≡ place_in numbers.now number }
{
    'numbers: for (at, other) in numbers.iter().enumerate() {
        if number == *other {
            return at;
        }
    }
    numbers.len()
}

// Appends a number to a list, unless the list has it already.
fn append_if_new(numbers: &mut Seq<u32>, number: u32) -> Result<(), NoMemory>
    ensures { OnOk result (numbers.new
        ≡ (if place_in numbers.old number == length numbers.old then numbers.old ++ number ∷ [] else numbers.old)) }
{
    if index_of(numbers.as_slice(), number) < numbers.len() {
        return Ok(());
    }
    numbers.push(number)
}

/// The tables that FROM names, each once, in the order in which FROM first names them.
pub(crate) fn table_numbers(alloc: Global, from: &[Source]) -> Result<Seq<u32>, NoMemory>
    ensures { IfOk result (λ numbers. numbers ≡ tables_of_query from.now) }
{
    let mut numbers = Seq::new(alloc);
    'entries: for source in from {
        append_if_new(&mut numbers, source.table)?;
    }
    Ok(numbers)
}

/// For each FROM entry the index of its table among the tables of the query.
pub(crate) fn slots(alloc: Global, from: &[Source], numbers: &[u32]) -> Result<Seq<u32>, NoMemory>
    requires { length numbers.now < 2 ^ 32 }
    ensures { IfOk result (λ slots. slots ≡ map (place_in numbers.now) (numbers_of from.now)) }
{
    let mut slots = Seq::new(alloc);
    'entries: for source in from {
        slots.push(index_of(numbers, source.table) as u32)?;
    }
    Ok(slots)
}
