//! Checks that no column may be null.
ghost use Rattle.std.specs.Prelude.{◌≡◌, [], All, IfOk, unwrap_or};
ghost use Rattle.std.specs.List.{list_any, flat_map};
ghost use Rattle.sql_tokens.specs.Words.{IsLexemeOf, name_of};
ghost use Rattle.schema_grammar.specs.Lexemes.{IsNameWith, IsColumnWith, IsElementWith, IsTableWith};
ghost use Rattle.schema_types.specs.Index.{table_index};
ghost use Rattle.schema_types.specs.Names.{list_if};
ghost use Rattle.schema_types.specs.Offences.{is_one_of};
ghost use Rattle.schema_types.specs.Refusals.{is_not_null, is_nullable, nullable_element, nullable_in, nullable_offsets};
ghost use Rattle.schema_types.specs.Finds.{FindsNullable};

use crate::SchemaError;
use crate::index::TableIndex;
use crate::name_list::NameList;
use crate::scope::Scope;
use base_io::NoMemory;
use ll_grammars::Lexeme;
use schema_grammar::{ColumnConstraintNode, ColumnNode, Element, TableNode};
use sql_tokens::name;

fn is_not_null(rules: &[ColumnConstraintNode]) -> bool
    ensures { result ≡ list_any is_not_null rules.now }
{
    rules
        .iter()
        .any(|rule| matches!(rule, ColumnConstraintNode::NotNull))
}

impl Scope<'_> {
    // Whether a name is in a primary key, if there is one.
    #[tactic(auto, using(crate::proofs::NameIndexes::is_one_of_by_index))]
    fn is_in_key(&self, key: &Option<NameList>, token: &Lexeme) -> Result<bool, NoMemory>
        requires { IsNameWith (IsLexemeOf self.now.text.now) token.now }
        ensures { IfOk result (λ found. found ≡ is_one_of (name_of self.now.text.now token.now) (unwrap_or key.now [])) }
    {
        match key {
            None => Ok(false),
            Some(names) => {
                let name = name(self.alloc, self.text, token)?;
                Ok(names.get(name.as_str()).is_some())
            }
        }
    }

    fn check_column_null(
        &self,
        key: &Option<NameList>,
        column: &ColumnNode,
    ) -> Result<(), SchemaError>
        requires { IsColumnWith (IsLexemeOf self.now.text.now) column.now }
        ensures { FindsNullable result (list_if (is_nullable self.now.text.now (unwrap_or key.now []) column.now) column.now.name.start) }
    {
        if is_not_null(column.rules.as_slice()) {
            return Ok(());
        }
        if self.is_in_key(key, &column.name)? {
            return Ok(());
        }
        Err(SchemaError::Nullable {
            at: column.name.start,
        })
    }

    fn check_element_null(
        &self,
        key: &Option<NameList>,
        element: &Element,
    ) -> Result<(), SchemaError>
        requires { IsElementWith (IsLexemeOf self.now.text.now) element.now }
        ensures { FindsNullable result (nullable_element self.now.text.now (unwrap_or key.now []) element.now) }
    {
        match element {
            Element::Column(column) => self.check_column_null(key, column),
            Element::Rule(_) => Ok(()),
        }
    }

    // Checks the elements of a table with this primary key.
    fn check_elements_null(
        &self,
        key: &Option<NameList>,
        elements: &[Element],
    ) -> Result<(), SchemaError>
        requires { All (IsElementWith (IsLexemeOf self.now.text.now)) elements.now }
        ensures { FindsNullable result (flat_map (nullable_element self.now.text.now (unwrap_or key.now [])) elements.now) }
    {
        'elements: for element in elements {
            self.check_element_null(key, element)?;
        }
        Ok(())
    }

    // Checks a table, given its index.
    #[tactic(auto, using(crate::proofs::Flat::key_is), unfolding(crate::specs::Refusals::nullable_in, crate::specs::Index::table_index))]
    fn check_table_null(&self, table: &TableNode, index: &TableIndex) -> Result<(), SchemaError>
        requires tokens { IsTableWith (IsLexemeOf self.now.text.now) table.now }
        requires indexed { index.now ≡ table_index self.now.text.now table.now }
        ensures { FindsNullable result (nullable_in self.now.text.now table.now) }
    {
        self.check_elements_null(&index.key, table.elements.as_slice())
    }

    /// Checks all columns: no column may be null.
    #[tactic(auto, unfolding(crate::specs::Refusals::nullable_offsets))]
    pub fn check_nullability(&self) -> Result<(), SchemaError>
        requires { All (IsTableWith (IsLexemeOf self.now.text.now)) self.now.tables.now }
        ensures { FindsNullable result (nullable_offsets self.now.text.now self.now.tables.now) }
    {
        'tables: for (i, table) in self.tables.iter().enumerate() {
            self.check_table_null(table, self.indexes.get(i))?;
        }
        Ok(())
    }
}
