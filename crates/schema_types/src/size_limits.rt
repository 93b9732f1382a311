//! Checks the limits on tables, columns and lengths of texts.
ghost use Rattle.std.specs.Prelude.{[], ◌∷◌, All, length};
ghost use Rattle.std.specs.List.{flat_map};
ghost use Rattle.limits.specs.Profile.{most_columns, most_length, most_tables};
ghost use Rattle.sql_tokens.specs.Words.{IsLexemeOf};
ghost use Rattle.schema_grammar.specs.Lexemes.{IsTypeWith, IsElementWith, IsTableWith};
ghost use Rattle.schema_types.specs.declared.errors.LimitKind.TheVariants as limit;
ghost use Rattle.schema_types.specs.Refusals.{numbers_above, column_counts, type_lengths, element_lengths, text_lengths};
ghost use Rattle.schema_types.specs.Finds.{FindsAbove};

use crate::scope::Scope;
use crate::{LimitKind, SchemaError};
use limits::{MOST_COLUMNS, MOST_LENGTH, MOST_TABLES};
use schema_grammar::{Element, TypeNode};
use sql_tokens::number;

impl Scope<'_> {
    pub fn check_table_count(&self) -> Result<(), SchemaError>
        ensures { FindsAbove limit.Tables result (numbers_above most_tables (length self.now.tables.now ∷ [])) }
    {
        let found = self.tables.len();
        if found > MOST_TABLES {
            return Err(SchemaError::Limit {
                which: LimitKind::Tables,
                found: found as u64,
            });
        }
        Ok(())
    }

    // Checks a table's number of columns.
    fn check_column_count(&self, found: usize) -> Result<(), SchemaError>
        ensures { FindsAbove limit.Columns result (numbers_above most_columns (found ∷ [])) }
    {
        if found > MOST_COLUMNS {
            return Err(SchemaError::Limit {
                which: LimitKind::Columns,
                found: found as u64,
            });
        }
        Ok(())
    }

    pub fn check_column_counts(&self) -> Result<(), SchemaError>
        ensures { FindsAbove limit.Columns result (numbers_above most_columns (column_counts self.now.tables.now)) }
    {
        let indexes = self.indexes.as_slice();
        'indexes: for index in indexes {
            self.check_column_count(index.columns.len())?;
        }
        Ok(())
    }

    // Checks the greatest length of a text type.
    fn check_length(&self, kind: &TypeNode) -> Result<(), SchemaError>
        requires { IsTypeWith (IsLexemeOf self.now.text.now) kind.now }
        ensures { FindsAbove limit.TextLength result (numbers_above most_length (type_lengths self.now.text.now kind.now)) }
    {
        match kind {
            TypeNode::Number => Ok(()),
            TypeNode::Text { length } => {
                let found = number(self.text, length);
                if found > MOST_LENGTH {
                    return Err(SchemaError::Limit {
                        which: LimitKind::TextLength,
                        found,
                    });
                }
                Ok(())
            }
        }
    }

    fn check_element_length(&self, element: &Element) -> Result<(), SchemaError>
        requires { IsElementWith (IsLexemeOf self.now.text.now) element.now }
        ensures { FindsAbove limit.TextLength result (numbers_above most_length (element_lengths self.now.text.now element.now)) }
    {
        match element {
            Element::Column(column) => self.check_length(&column.kind),
            Element::Rule(_) => Ok(()),
        }
    }

    fn check_lengths(&self, elements: &[Element]) -> Result<(), SchemaError>
        requires { All (IsElementWith (IsLexemeOf self.now.text.now)) elements.now }
        ensures { FindsAbove limit.TextLength result
            (flat_map (λ element. numbers_above most_length (element_lengths self.now.text.now element)) elements.now) }
    {
        'elements: for element in elements {
            self.check_element_length(element)?;
        }
        Ok(())
    }

    pub fn check_text_lengths(&self) -> Result<(), SchemaError>
        requires { All (IsTableWith (IsLexemeOf self.now.text.now)) self.now.tables.now }
        ensures { FindsAbove limit.TextLength result (numbers_above most_length (text_lengths self.now.text.now self.now.tables.now)) }
    {
        'tables: for table in self.tables {
            self.check_lengths(table.elements.as_slice())?;
        }
        Ok(())
    }
}
