//! Builds the tables of a schema that exceeds no limit.
ghost use Rattle.std.specs.Prelude.{◌≡◌, [], ◌++◌, All, IfOk, OnOk};
ghost use Rattle.std.specs.List.{flat_map};
ghost use Rattle.limits.specs.Profile.{most_length};
ghost use Rattle.sql_tokens.specs.Words.{IsLexemeOf};
ghost use Rattle.schema_grammar.specs.Lexemes.{IsTypeWith, IsColumnWith, IsElementWith, IsTableWith};
ghost use Rattle.schema_types.specs.Index.{table_index};
ghost use Rattle.schema_types.specs.Meaning.{kind_of, column_of, element_column, table_of, schema_of};
ghost use Rattle.schema_types.specs.Refusals.{numbers_above, type_lengths, element_lengths, text_lengths};

use crate::build::KeysAndReferences;
use crate::index::TableIndex;
use crate::scope::Scope;
use crate::types::{Column, Kind, Schema, Table};
use base_io::{NoMemory, Seq};
use schema_grammar::{ColumnNode, Element, TableNode, TypeNode};
use sql_tokens::{name, number};

impl Scope<'_> {
    #[tactic(auto, using(crate::proofs::Above::not_above))]
    fn kind(&self, kind: &TypeNode) -> Kind
        requires tokens { IsTypeWith (IsLexemeOf self.now.text.now) kind.now }
        requires within { numbers_above most_length (type_lengths self.now.text.now kind.now) ≡ [] }
        ensures { result ≡ kind_of self.now.text.now kind.now }
    {
        match kind {
            TypeNode::Number => Kind::Int,
            TypeNode::Text { length } => Kind::Text(number(self.text, length) as u32),
        }
    }

    fn column(&self, column: &ColumnNode) -> Result<Column, NoMemory>
        requires tokens { IsColumnWith (IsLexemeOf self.now.text.now) column.now }
        requires within { numbers_above most_length (type_lengths self.now.text.now column.now.kind) ≡ [] }
        ensures { IfOk result (λ found. found ≡ column_of self.now.text.now column.now) }
    {
        let name = name(self.alloc, self.text, &column.name)?;
        let kind = self.kind(&column.kind);
        Ok(Column { name, kind })
    }

    fn add_element_column(
        &self,
        element: &Element,
        columns: &mut Seq<Column>,
    ) -> Result<(), NoMemory>
        requires tokens { IsElementWith (IsLexemeOf self.now.text.now) element.now }
        requires within { numbers_above most_length (element_lengths self.now.text.now element.now) ≡ [] }
        ensures { OnOk result (columns.new ≡ columns.old ++ element_column self.now.text.now element.now) }
    {
        match element {
            Element::Column(column) => {
                let column = self.column(column)?;
                columns.push(column)
            }
            Element::Rule(_) => Ok(()),
        }
    }

    fn columns(&self, elements: &[Element]) -> Result<Seq<Column>, NoMemory>
        requires tokens { All (IsElementWith (IsLexemeOf self.now.text.now)) elements.now }
        requires within { flat_map (λ element. numbers_above most_length (element_lengths self.now.text.now element)) elements.now ≡ [] }
        ensures { IfOk result (λ found. found ≡ flat_map (element_column self.now.text.now) elements.now) }
    {
        let mut found = Seq::new(self.alloc);
        'elements: for element in elements {
            self.add_element_column(element, &mut found)?;
        }
        Ok(found)
    }

    // A table of the schema, given its index.
    #[tactic(auto, unfolding(crate::specs::Meaning::table_of, crate::specs::Index::table_index))]
    fn table(&self, table: &TableNode, index: &TableIndex) -> Result<Table, NoMemory>
        requires tokens { IsTableWith (IsLexemeOf self.now.text.now) table.now }
        requires indexed { index.now ≡ table_index self.now.text.now table.now }
        requires within { flat_map (λ element. numbers_above most_length (element_lengths self.now.text.now element)) table.now.elements ≡ [] }
        ensures { IfOk result (λ found. found ≡ table_of self.now.text.now self.now.tables.now table.now) }
    {
        let name = name(self.alloc, self.text, &table.name)?;
        let columns = self.columns(table.elements.as_slice())?;
        let links = self.links(&index.columns, table.elements.as_slice())?;
        let KeysAndReferences { keys, references } = links;
        Ok(Table {
            name,
            columns,
            keys,
            references,
        })
    }

    /// The schema of these tables.
    #[tactic(auto, unfolding(crate::specs::Meaning::schema_of))]
    pub fn schema(&self) -> Result<Schema, NoMemory>
        requires tokens { All (IsTableWith (IsLexemeOf self.now.text.now)) self.now.tables.now }
        requires within { numbers_above most_length (text_lengths self.now.text.now self.now.tables.now) ≡ [] }
        ensures { IfOk result (λ found. found ≡ schema_of self.now.text.now self.now.tables.now) }
    {
        let mut tables = Seq::new(self.alloc);
        'tables: for (i, table) in self.tables.iter().enumerate() {
            let table = self.table(table, self.indexes.get(i))?;
            tables.push(table)?;
        }
        Ok(Schema { tables })
    }
}
