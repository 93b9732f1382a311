//! The index of a table, for look-ups of columns and keys.
ghost use Rattle.std.specs.Prelude.{◌≡◌, ℕ, [], List, Option, All, IfOk, option_map, unwrap_or};
ghost use Rattle.ll_grammars.specs.declared.lexeme.Lexeme.{Lexeme};
ghost use Rattle.std.specs.List.{list_any};
ghost use Rattle.sql_tokens.specs.Words.{IsLexemeOf};
ghost use Rattle.schema_grammar.specs.Lexemes.{IsNameWith, IsTableConstraintWith, IsColumnWith, IsElementWith, IsTableWith};
ghost use Rattle.schema_types.specs.Names.{first, names_of};
ghost use Rattle.schema_types.specs.Declarations.{column_names, primary_key, element_primary_key, rule_primary_key, column_primary_key, is_primary_rule};
ghost use Rattle.schema_types.specs.Index.{table_index};
ghost use Rattle.schema_types.specs.Numbers.{numbers_of_columns};

use crate::name_list::NameList;
use base_io::{NoMemory, Seq};
use ll_grammars::Lexeme;
use schema_grammar::{ColumnConstraintNode, ColumnNode, Element, TableConstraintNode, TableNode};
use sql_tokens::name;
use std::alloc::Global;

/// The names of a table's columns, the names in its first primary key, and the numbers of the columns in this key.
#[derive(Drop)]
pub struct TableIndex {
    pub columns: NameList,
    pub key: Option<NameList>,
    pub numbers: Seq<u32>,
}

/// The names of tokens.
pub fn name_list(alloc: Global, text: &[u8], tokens: &[Lexeme]) -> Result<NameList, NoMemory>
    requires { All (IsNameWith (IsLexemeOf text.now)) tokens.now }
    ensures { IfOk result (λ found. found ≡ names_of text.now tokens.now) }
{
    let mut found = NameList::new(alloc);
    'tokens: for token in tokens {
        let name = name(alloc, text, token)?;
        found.push(alloc, name.as_str())?;
    }
    Ok(found)
}

fn column_names(alloc: Global, text: &[u8], elements: &[Element]) -> Result<NameList, NoMemory>
    requires { All (IsElementWith (IsLexemeOf text.now)) elements.now }
    ensures { IfOk result (λ found. found ≡ column_names text.now elements.now) }
{
    let mut found = NameList::new(alloc);
    'elements: for element in elements {
        if let Element::Column(column) = element {
            let name = name(alloc, text, &column.name)?;
            found.push(alloc, name.as_str())?;
        }
    }
    Ok(found)
}

/// Whether a column's constraints make it a primary key.
pub fn is_primary(rules: &[ColumnConstraintNode]) -> bool
    ensures { result ≡ list_any is_primary_rule rules.now }
{
    rules.iter().any(|rule| matches!(rule, ColumnConstraintNode::PrimaryKey { .. }))
}

fn rule_key(
    alloc: Global,
    text: &[u8],
    rule: &TableConstraintNode,
) -> Result<Option<NameList>, NoMemory>
    requires { IsTableConstraintWith (IsLexemeOf text.now) rule.now }
    ensures { IfOk result (λ found. found ≡ option_map (names_of text.now) (first (rule_primary_key rule.now))) }
{
    match rule {
        TableConstraintNode::PrimaryKey { columns, .. } => {
            let key = name_list(alloc, text, columns.as_slice())?;
            Ok(Some(key))
        }
        TableConstraintNode::Unique { .. } => Ok(None),
        TableConstraintNode::ForeignKey { .. } => Ok(None),
    }
}

fn column_key(alloc: Global, text: &[u8], column: &ColumnNode) -> Result<Option<NameList>, NoMemory>
    requires { IsColumnWith (IsLexemeOf text.now) column.now }
    ensures { IfOk result (λ found. found ≡ option_map (names_of text.now) (first (column_primary_key column.now))) }
{
    if is_primary(column.rules.as_slice()) {
        let key = name_list(alloc, text, &[column.name])?;
        return Ok(Some(key));
    }
    Ok(None)
}

// The names in the primary key that an element declares.
fn element_key(alloc: Global, text: &[u8], element: &Element) -> Result<Option<NameList>, NoMemory>
    requires { IsElementWith (IsLexemeOf text.now) element.now }
    ensures { IfOk result (λ found. found ≡ option_map (names_of text.now) (first (element_primary_key element.now))) }
{
    match element {
        Element::Column(column) => column_key(alloc, text, column),
        Element::Rule(rule) => rule_key(alloc, text, rule),
    }
}

// The names in the first primary key of a table.
#[tactic(auto, using(crate::proofs::Keys::no_key, crate::proofs::Keys::key_found), unfolding(crate::specs::Declarations::primary_key))]
fn primary_key(
    alloc: Global,
    text: &[u8],
    elements: &[Element],
) -> Result<Option<NameList>, NoMemory>
    requires { All (IsElementWith (IsLexemeOf text.now)) elements.now }
    ensures { IfOk result (λ found. found ≡ option_map (names_of text.now) (primary_key elements.now)) }
{
    'elements: for element in elements {
        let key = element_key(alloc, text, element)?;
        if key.is_some() {
            return Ok(key);
        }
    }
    Ok(None)
}

// The numbers of a key's columns. Without a key the list is empty.
#[tactic(auto, using(crate::proofs::Numbering::key_numbers_none, crate::proofs::Numbering::key_numbers_some))]
fn key_numbers(
    alloc: Global,
    columns: &NameList,
    key: &Option<NameList>,
) -> Result<Seq<u32>, NoMemory>
    ensures { (text : List ℕ) (written : Option (List Lexeme)) → key.now ≡ option_map (names_of text) written
        → IfOk result (λ found. found ≡ unwrap_or (option_map (numbers_of_columns text columns.now) written) []) }
{
    match key {
        None => Ok(Seq::new(alloc)),
        Some(names) => names.numbers_of_columns(alloc, columns),
    }
}

/// Makes the index of a table.
#[tactic(auto, unfolding(crate::specs::Index::table_index))]
pub fn index_table(alloc: Global, text: &[u8], table: &TableNode) -> Result<TableIndex, NoMemory>
    requires { IsTableWith (IsLexemeOf text.now) table.now }
    ensures { IfOk result (λ found. found ≡ table_index text.now table.now) }
{
    let elements = table.elements.as_slice();
    let columns = column_names(alloc, text, elements)?;
    let key = primary_key(alloc, text, elements)?;
    let numbers = key_numbers(alloc, &columns, &key)?;
    Ok(TableIndex {
        columns,
        key,
        numbers,
    })
}
