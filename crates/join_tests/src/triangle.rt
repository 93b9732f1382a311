//! Builds a query that joins three tables in a triangle, and its database; a test finds its four choices.
//!
//! The contracts say that this query and this database are those of the worked example in sql_meaning's specs.
ghost use Rattle.std.specs.Prelude.{◌≡◌, ◌∷◌, [], IfOk};
ghost use Rattle.query_grammar.specs.declared.tree.Op.TheVariants as op;
ghost use Rattle.query_types.specs.declared.types.Cond.{Compare};
ghost use Rattle.sql_meaning.specs.Examples.{column_at, three_rows, triangle, triangle_tables};

use base_io::{Name, NoMemory, Seq};
use csv_tables::{Cells, Database, Pool};
use query_types::{ColumnRef, Cond, Op, Operand, Out, Query, Source};
use schema_types::Kind;
use sql_meaning::answer_slow;
use std::alloc::Global;

#[derive(Debug, Drop)]
struct Failed;

impl From<NoMemory> for Failed {
    fn from(_: NoMemory) -> Self {
        Failed
    }
}

fn list<T: Drop>(alloc: Global, a: T, b: T, c: T) -> Result<Seq<T>, NoMemory>
    ensures { IfOk result (λ l. l ≡ a ∷ b ∷ c ∷ []) }
{
    let mut list = Seq::new(alloc);
    list.push(a)?;
    list.push(b)?;
    list.push(c)?;
    Ok(list)
}

fn column(from: u8, column: u32) -> Operand
    ensures { result ≡ column_at from column }
{
    Operand::Column(ColumnRef { from, column })
}

fn equal(left: Operand, right: Operand) -> Cond
    ensures { result ≡ Compare op.Eq left right }
{
    Cond::Compare {
        op: Op::Eq,
        left,
        right,
    }
}

fn source(alloc: Global, table: u32, alias: &str) -> Result<Source, NoMemory>
    ensures { IfOk result (λ s. s ≡ record { table = table; alias = alias.now }) }
{
    let alias = Name::from_str(alloc, alias)?;
    Ok(Source { table, alias })
}

fn out(alloc: Global, from: u8, column: u32, name: &str) -> Result<Out, NoMemory>
    ensures { IfOk result (λ o. o ≡ record { column = record { from = from; column = column }; name = name.now }) }
{
    let name = Name::from_str(alloc, name)?;
    Ok(Out {
        column: ColumnRef { from, column },
        name,
    })
}

fn sources(alloc: Global) -> Result<Seq<Source>, NoMemory>
    ensures { IfOk result (λ l. l ≡ triangle.from) }
{
    let r = source(alloc, 0, "R")?;
    let s = source(alloc, 1, "S")?;
    let t = source(alloc, 2, "T")?;
    list(alloc, r, s, t)
}

fn outs(alloc: Global) -> Result<Seq<Out>, NoMemory>
    ensures { IfOk result (λ l. l ≡ triangle.select) }
{
    let a = out(alloc, 0, 0, "A")?;
    let b = out(alloc, 1, 1, "B")?;
    let c = out(alloc, 2, 1, "C")?;
    list(alloc, a, b, c)
}

pub fn query(alloc: Global) -> Result<Query, NoMemory>
    ensures { IfOk result (λ q. q ≡ triangle) }
{
    let a = equal(column(0, 0), column(1, 0));
    let b = equal(column(1, 1), column(2, 0));
    let c = equal(column(2, 1), column(0, 1));
    let conjuncts = list(alloc, a, b, c)?;
    let from = sources(alloc)?;
    let select = outs(alloc)?;
    Ok(Query {
        from,
        conjuncts,
        select,
    })
}

fn cells(alloc: Global, first: &[u64], second: &[u64]) -> Result<Cells, NoMemory>
    ensures { IfOk result (λ c. c ≡ three_rows first.now second.now) }
{
    let mut kinds = Seq::new(alloc);
    kinds.push(Kind::Int)?;
    kinds.push(Kind::Int)?;
    let mut columns = Seq::new(alloc);
    columns.push(Seq::from_vec(Vec::from_slice(alloc, first)?))?;
    columns.push(Seq::from_vec(Vec::from_slice(alloc, second)?))?;
    Ok(Cells {
        kinds,
        columns,
        rows: 3,
    })
}

pub fn database(alloc: Global) -> Result<Database, NoMemory>
    ensures { IfOk result (λ db. db ≡ triangle_tables) }
{
    let r = cells(alloc, &[1, 1, 2], &[1, 2, 1])?;
    let s = cells(alloc, &[1, 1, 2], &[1, 2, 1])?;
    let t = cells(alloc, &[1, 2, 1], &[1, 1, 2])?;
    let cells = list(alloc, r, s, t)?;
    let slots = list(alloc, 0, 1, 2)?;
    Ok(Database {
        pool: Pool::new(alloc),
        cells,
        slots,
    })
}

fn choices_of_triangle(alloc: Global) -> Result<Seq<Seq<u32>>, NoMemory> {
    let query = query(alloc)?;
    let db = database(alloc)?;
    answer_slow(alloc, &query, &db)
}

#[test]
fn a_triangle_has_four_choices(rt: HostRuntime) -> Result<(), Failed> {
    let found = choices_of_triangle(rt.alloc())?;
    assert_eq!(rt; found.len(), 4);
    let wanted = [[0, 0, 0], [0, 1, 1], [1, 0, 2], [2, 2, 0]];
    for (choice, want) in found.as_slice().iter().zip(&wanted) {
        assert!(rt; choice.as_slice() == want.as_slice());
    }
    Ok(())
}
