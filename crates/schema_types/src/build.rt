//! Finds the keys and references that tables declare.
ghost use Rattle.std.specs.Prelude.{◌≡◌, ◌++◌, All, IfOk, OnOk, Some};
ghost use Rattle.std.specs.List.{flat_map};
ghost use Rattle.ll_grammars.specs.declared.lexeme.Lexeme.{Lexeme};
ghost use Rattle.sql_tokens.specs.Words.{IsLexemeOf};
ghost use Rattle.schema_grammar.specs.declared.tree.TableNode.{TableNode};
ghost use Rattle.schema_grammar.specs.Lexemes.{IsNameWith, IsTargetWith, IsColumnConstraintWith, IsColumnWith, IsTableConstraintWith, IsElementWith};
ghost use Rattle.schema_types.specs.Index.{table_index};
ghost use Rattle.schema_types.specs.Meaning.{rule_keys, column_keys, table_rule_keys, element_keys, target_column_numbers, reference_of, rule_references, column_references, table_rule_references, element_references};
ghost use Rattle.schema_types.specs.Numbers.{number_of_column, numbers_of_columns};

use crate::index::TableIndex;
use crate::name_list::NameList;
use crate::scope::Scope;
use crate::types::Reference;
use base_io::{NoMemory, Seq};
use ll_grammars::Lexeme;
use schema_grammar::{ColumnConstraintNode, ColumnNode, Element, TableConstraintNode, TargetNode};
use sql_tokens::name;

/// The keys and references of a table.
#[derive(Drop)]
pub struct KeysAndReferences {
    pub keys: Seq<Seq<u32>>,
    pub references: Seq<Reference>,
}

impl Scope<'_> {
    // The number of a column among the declared columns, or 0 if it isn't declared.
    fn number(&self, declared: &NameList, column: &Lexeme) -> Result<u32, NoMemory>
        requires { IsNameWith (IsLexemeOf self.now.text.now) column.now }
        ensures { IfOk result (λ found. found ≡ number_of_column self.now.text.now declared.now column.now) }
    {
        let name = name(self.alloc, self.text, column)?;
        Ok(declared.get(name.as_str()).unwrap_or(0))
    }

    #[tactic(auto, unfolding(crate::specs::Numbers::numbers_of_columns))]
    fn numbers(&self, declared: &NameList, columns: &[Lexeme]) -> Result<Seq<u32>, NoMemory>
        requires { All (IsNameWith (IsLexemeOf self.now.text.now)) columns.now }
        ensures { IfOk result (λ found. found ≡ numbers_of_columns self.now.text.now declared.now columns.now) }
    {
        let mut found = Seq::new(self.alloc);
        'columns: for column in columns {
            let number = self.number(declared, column)?;
            found.push(number)?;
        }
        Ok(found)
    }

    // The numbers of the columns that a reference refers to. `table` is the reference's target.
    #[tactic(auto, unfolding(crate::specs::Index::table_index))]
    fn target_columns(&self, target: &TargetNode, table: &TableIndex) -> Result<Seq<u32>, NoMemory>
        requires { IsTargetWith (IsLexemeOf self.now.text.now) target.now }
        ensures { (declared : TableNode) → table.now ≡ table_index self.now.text.now declared
            → IfOk result (λ found. found ≡ target_column_numbers self.now.text.now target.now.columns (Some declared)) }
    {
        match &target.columns {
            Some(columns) => self.numbers(&table.columns, columns.as_slice()),
            None => {
                let numbers = Vec::from_slice(self.alloc, table.numbers.as_slice())?;
                Ok(Seq::from_vec(numbers))
            }
        }
    }

    // The reference from these columns to a target.
    #[tactic(auto, unfolding(crate::specs::Meaning::reference_of))]
    fn reference(&self, columns: Seq<u32>, target: &TargetNode) -> Result<Reference, NoMemory>
        requires { IsTargetWith (IsLexemeOf self.now.text.now) target.now }
        ensures { IfOk result (λ found. found ≡ reference_of self.now.text.now self.now.tables.now columns target.now) }
    {
        match self.table_number(&target.table)? {
            None => Ok(Reference {
                columns,
                table: 0,
                targets: Seq::new(self.alloc),
            }),
            Some(table) => {
                let targets = self.target_columns(target, self.indexes.get(table as usize))?;
                Ok(Reference {
                    columns,
                    table,
                    targets,
                })
            }
        }
    }

    // Adds the keys and references that a constraint of column `number` declares.
    fn add_rule(
        &self,
        number: u32,
        rule: &ColumnConstraintNode,
        links: &mut KeysAndReferences,
    ) -> Result<(), NoMemory>
        requires { IsColumnConstraintWith (IsLexemeOf self.now.text.now) rule.now }
        ensures keys { OnOk result (links.new.keys ≡ links.old.keys ++ rule_keys number rule.now) }
        ensures references { OnOk result (links.new.references
            ≡ links.old.references ++ rule_references self.now.text.now self.now.tables.now number rule.now) }
    {
        match rule {
            ColumnConstraintNode::NotNull => Ok(()),
            ColumnConstraintNode::PrimaryKey { .. } => {
                let key = Seq::one(self.alloc, number)?;
                links.keys.push(key)
            }
            ColumnConstraintNode::Unique => {
                let key = Seq::one(self.alloc, number)?;
                links.keys.push(key)
            }
            ColumnConstraintNode::References(target) => {
                let columns = Seq::one(self.alloc, number)?;
                let reference = self.reference(columns, target)?;
                links.references.push(reference)
            }
        }
    }

    // Adds the keys and references that a column declares.
    fn add_column(
        &self,
        declared: &NameList,
        column: &ColumnNode,
        links: &mut KeysAndReferences,
    ) -> Result<(), NoMemory>
        requires { IsColumnWith (IsLexemeOf self.now.text.now) column.now }
        ensures keys { OnOk result (links.new.keys ≡ links.old.keys ++ column_keys self.now.text.now declared.now column.now) }
        ensures references { OnOk result (links.new.references
            ≡ links.old.references ++ column_references self.now.text.now self.now.tables.now declared.now column.now) }
    {
        let number = self.number(declared, &column.name)?;
        'rules: for rule in column.rules.as_slice() {
            self.add_rule(number, rule, links)?;
        }
        Ok(())
    }

    // Adds the keys and references that a constraint of a table declares. `declared` are the table's columns.
    fn add_table_rule(
        &self,
        declared: &NameList,
        rule: &TableConstraintNode,
        links: &mut KeysAndReferences,
    ) -> Result<(), NoMemory>
        requires { IsTableConstraintWith (IsLexemeOf self.now.text.now) rule.now }
        ensures keys { OnOk result (links.new.keys ≡ links.old.keys ++ table_rule_keys self.now.text.now declared.now rule.now) }
        ensures references { OnOk result (links.new.references
            ≡ links.old.references ++ table_rule_references self.now.text.now self.now.tables.now declared.now rule.now) }
    {
        match rule {
            TableConstraintNode::PrimaryKey { columns, .. } => {
                let key = self.numbers(declared, columns.as_slice())?;
                links.keys.push(key)
            }
            TableConstraintNode::Unique { columns } => {
                let key = self.numbers(declared, columns.as_slice())?;
                links.keys.push(key)
            }
            TableConstraintNode::ForeignKey { columns, target } => {
                let columns = self.numbers(declared, columns.as_slice())?;
                let reference = self.reference(columns, target)?;
                links.references.push(reference)
            }
        }
    }

    fn add_element(
        &self,
        declared: &NameList,
        element: &Element,
        links: &mut KeysAndReferences,
    ) -> Result<(), NoMemory>
        requires { IsElementWith (IsLexemeOf self.now.text.now) element.now }
        ensures keys { OnOk result (links.new.keys ≡ links.old.keys ++ element_keys self.now.text.now declared.now element.now) }
        ensures references { OnOk result (links.new.references
            ≡ links.old.references ++ element_references self.now.text.now self.now.tables.now declared.now element.now) }
    {
        match element {
            Element::Column(column) => self.add_column(declared, column, links),
            Element::Rule(rule) => self.add_table_rule(declared, rule, links),
        }
    }

    /// The keys and references that the elements of a table declare. `declared` are the table's columns.
    pub fn links(
        &self,
        declared: &NameList,
        elements: &[Element],
    ) -> Result<KeysAndReferences, NoMemory>
        requires { All (IsElementWith (IsLexemeOf self.now.text.now)) elements.now }
        ensures keys { IfOk result (λ found. found.keys ≡ flat_map (element_keys self.now.text.now declared.now) elements.now) }
        ensures references { IfOk result (λ found.
            found.references ≡ flat_map (element_references self.now.text.now self.now.tables.now declared.now) elements.now) }
    {
        let mut links = KeysAndReferences {
            keys: Seq::new(self.alloc),
            references: Seq::new(self.alloc),
        };
        'elements: for element in elements {
            self.add_element(declared, element, &mut links)?;
        }
        Ok(links)
    }
}
