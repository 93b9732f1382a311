//! Finds the tables and columns of a schema by name.
ghost use Rattle.std.specs.Prelude.{◌≡◌, IfOk, ◌<◌, ◌≤◌, length, map};
ghost use Rattle.schema_types.specs.Names.{index_of_name};
ghost use Rattle.schema_types.specs.Validity.{IsValid, IsValidTable};
ghost use Rattle.query_names.specs.Names.{table_names, column_names, column_named, column_in};

use crate::scope::{Entry, EntryColumn};
use base_io::{NoMemory, Seq};
use schema_types::{NameList, Schema, Table};
use std::alloc::Global;

/// A table, whose columns can be found by name.
#[derive(Drop)]
pub struct TableByName<'a> {
    pub table: &'a Table,
    pub columns: NameList,
    ghost few: { length table.now.columns ≤ 64 },
    ghost named: { columns ≡ column_names table.now },
}

/// A schema. Its tables can be found by name, and so can the columns of each table.
#[derive(Drop)]
pub struct Catalog<'a> {
    pub schema: &'a Schema,
    names: NameList,
    tables: Seq<TableByName<'a>>,
    ghost few: { length schema.now.tables ≤ 64 },
    ghost named: { names ≡ table_names schema.now },
    ghost listed: { map (λ listed. listed.table.now) tables ≡ schema.now.tables },
}

impl<'a> TableByName<'a> {
    pub fn new(alloc: Global, table: &'a Table) -> Result<TableByName<'a>, NoMemory>
        requires { IsValidTable table.now }
        ensures { IfOk result (λ listed. listed.table.now ≡ table.now) }
    {
        let mut columns = NameList::new(alloc);
        'all: for column in table.columns.as_slice() {
            columns.push(alloc, column.name.as_str())?;
        }
        Ok(TableByName { table, columns })
    }

    /// The table's column with this name, as a column of FROM entry number `from`.
    pub fn column(&self, from: usize, name: &str) -> Option<EntryColumn>
        ensures { result ≡ column_named from self.now.table.now name.now }
    {
        let number = self.columns.get(name)?;
        let column = self.table.columns.as_slice().get(number as usize)?;
        Some(EntryColumn {
            from,
            column: number,
            kind: column.kind,
        })
    }
}

fn table_names(alloc: Global, schema: &Schema) -> Result<NameList, NoMemory>
    ensures { IfOk result (λ names. names ≡ table_names schema.now) }
{
    let mut names = NameList::new(alloc);
    'all: for table in schema.tables.as_slice() {
        names.push(alloc, table.name.as_str())?;
    }
    Ok(names)
}

fn tables_by_name<'a>(alloc: Global, schema: &'a Schema) -> Result<Seq<TableByName<'a>>, NoMemory>
    requires { IsValid schema.now }
    ensures { IfOk result (λ found. map (λ listed. listed.table.now) found ≡ schema.now.tables) }
{
    let mut found = Seq::new(alloc);
    'all: for table in schema.tables.as_slice() {
        found.push(TableByName::new(alloc, table)?)?;
    }
    Ok(found)
}

impl<'a> Catalog<'a> {
    pub fn new(alloc: Global, schema: &'a Schema) -> Result<Catalog<'a>, NoMemory>
        requires { IsValid schema.now }
        ensures { IfOk result (λ catalog. catalog.schema.now ≡ schema.now) }
    {
        let names = table_names(alloc, schema)?;
        let tables = tables_by_name(alloc, schema)?;
        Ok(Catalog {
            schema,
            names,
            tables,
        })
    }

    pub fn schema(&self) -> &'a Schema
        ensures { result.now ≡ self.now.schema.now }
    {
        self.schema
    }

    /// The number of the table with this name.
    pub fn table(&self, name: &str) -> Option<u32>
        ensures { result ≡ index_of_name (table_names self.now.schema.now) name.now }
    {
        self.names.get(name)
    }

    /// The column with this name in an entry's table.
    #[tactic(auto, unfolding(crate::specs::Names::column_in))]
    pub fn column(&self, name: &str, entry: Entry) -> Option<EntryColumn>
        ensures { result ≡ column_in self.now.schema.now name.now entry }
    {
        let listed = self.tables.as_slice().get(entry.table as usize)?;
        listed.column(entry.number, name)
    }
}
