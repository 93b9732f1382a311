//! The tables of a schema text, with their names and indexes for look-ups.
ghost use Rattle.std.specs.Prelude.{◌≡◌, All, IfOk, map};
ghost use Rattle.sql_tokens.specs.Words.{IsLexemeOf, name_of};
ghost use Rattle.schema_grammar.specs.Lexemes.{IsNameWith, IsTableWith};
ghost use Rattle.schema_types.specs.Declarations.{table_names};
ghost use Rattle.schema_types.specs.Index.{table_index};
ghost use Rattle.schema_types.specs.Names.{index_of_name};

use crate::index::{TableIndex, index_table};
use crate::name_list::NameList;
use base_io::{NoMemory, Seq};
use ll_grammars::Lexeme;
use schema_grammar::TableNode;
use sql_tokens::name;
use std::alloc::Global;

/// The tables of a schema text. Look-ups use the names of the tables and an index of each table.
#[derive(Drop)]
pub struct Scope<'a> {
    pub alloc: Global,
    pub text: &'a [u8],
    pub tables: &'a [TableNode],
    pub names: NameList,
    pub indexes: Seq<TableIndex>,
    ghost named: { names ≡ table_names text.now tables.now },
    ghost indexed: { indexes ≡ map (table_index text.now) tables.now },
}

fn table_names(alloc: Global, text: &[u8], tables: &[TableNode]) -> Result<NameList, NoMemory>
    requires { All (IsTableWith (IsLexemeOf text.now)) tables.now }
    ensures { IfOk result (λ found. found ≡ table_names text.now tables.now) }
{
    let mut found = NameList::new(alloc);
    'tables: for table in tables {
        let name = name(alloc, text, &table.name)?;
        found.push(alloc, name.as_str())?;
    }
    Ok(found)
}

fn table_indexes(
    alloc: Global,
    text: &[u8],
    tables: &[TableNode],
) -> Result<Seq<TableIndex>, NoMemory>
    requires { All (IsTableWith (IsLexemeOf text.now)) tables.now }
    ensures { IfOk result (λ found. found ≡ map (table_index text.now) tables.now) }
{
    let mut found = Seq::new(alloc);
    'tables: for table in tables {
        let index = index_table(alloc, text, table)?;
        found.push(index)?;
    }
    Ok(found)
}

impl<'a> Scope<'a> {
    /// Makes the scope of these tables.
    pub fn new(
        alloc: Global,
        text: &'a [u8],
        tables: &'a [TableNode],
    ) -> Result<Scope<'a>, NoMemory>
        requires { All (IsTableWith (IsLexemeOf text.now)) tables.now }
        ensures text { IfOk result (λ scope. scope.text.now ≡ text.now) }
        ensures tables { IfOk result (λ scope. scope.tables.now ≡ tables.now) }
    {
        let names = table_names(alloc, text, tables)?;
        let indexes = table_indexes(alloc, text, tables)?;
        Ok(Scope {
            alloc,
            text,
            tables,
            names,
            indexes,
        })
    }

    /// The number of the table that a token names.
    pub fn table_number(&self, token: &Lexeme) -> Result<Option<u32>, NoMemory>
        requires { IsNameWith (IsLexemeOf self.now.text.now) token.now }
        ensures { IfOk result (λ place.
            place ≡ index_of_name (table_names self.now.text.now self.now.tables.now) (name_of self.now.text.now token.now)) }
    {
        let name = name(self.alloc, self.text, token)?;
        Ok(self.names.get(name.as_str()))
    }
}
