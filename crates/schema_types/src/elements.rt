//! Checks the elements of a table: columns and constraints.
ghost use Rattle.std.specs.Prelude.{◌≡◌, ℕ, ◌||◌, [], ◌∷◌, ◌++◌, Bool, List, All, map, OnOk};
ghost use Rattle.std.specs.List.{list_any};
ghost use Rattle.sql_tokens.specs.Words.{IsLexemeOf, name_of};
ghost use Rattle.schema_grammar.specs.declared.tree.ColumnConstraintNode.{ColumnConstraintNode};
ghost use Rattle.schema_grammar.specs.declared.tree.Element.{Element};
ghost use Rattle.schema_grammar.specs.Lexemes.{IsNameWith, IsColumnConstraintWith, IsColumnWith, IsTableConstraintWith, IsElementWith};
ghost use Rattle.schema_types.specs.Declarations.{column_names, is_primary_rule};
ghost use Rattle.schema_types.specs.Names.{list_if, flat_map_with_all_earlier};
ghost use Rattle.schema_types.specs.Offences.{is_primary, is_taken, rule_offences, column_offences, table_rule_offences, element_offences};
ghost use Rattle.schema_types.specs.Finds.{IsNameCheckOf};
ghost use Rattle.schema_types.specs.Validity.{upper_case};

use crate::SchemaError;
use crate::index::is_primary;
use crate::lists::check_list;
use crate::name_list::NameList;
use crate::scope::Scope;
use ll_grammars::Lexeme;
use schema_grammar::{ColumnConstraintNode, ColumnNode, Element, TableConstraintNode};
use sql_tokens::name;

// Whether `keyed` is true or the constraint is a primary key.
fn is_keyed_after_rule(keyed: bool, rule: &ColumnConstraintNode) -> bool
    ensures { result ≡ (keyed || is_primary_rule rule.now) }
{
    keyed || matches!(rule, ColumnConstraintNode::PrimaryKey { .. })
}

// Whether an element declares a primary key.
fn is_primary_element(element: &Element) -> bool
    ensures { result ≡ is_primary element.now }
{
    match element {
        Element::Column(column) => is_primary(column.rules.as_slice()),
        Element::Rule(rule) => match rule {
            TableConstraintNode::PrimaryKey { .. } => true,
            TableConstraintNode::Unique { .. } => false,
            TableConstraintNode::ForeignKey { .. } => false,
        },
    }
}

// Whether `keyed` is true or the element declares a primary key.
fn is_keyed_after(keyed: bool, element: &Element) -> bool
    ensures { result ≡ (keyed || is_primary element.now) }
{
    keyed || is_primary_element(element)
}

impl Scope<'_> {
    // Checks a column's constraint. `keyed` says whether the table has a primary key before this constraint.
    #[tactic(auto, unfolding(crate::specs::Offences::rule_offences))]
    fn check_rule(&self, keyed: bool, rule: &ColumnConstraintNode) -> Result<(), SchemaError>
        requires { IsColumnConstraintWith (IsLexemeOf self.now.text.now) rule.now }
        ensures { (before : Bool) (earlier : List ColumnConstraintNode) → keyed ≡ (before || list_any is_primary_rule earlier)
            → IsNameCheckOf result (rule_offences self.now.text.now self.now.tables.now before earlier rule.now) }
    {
        match rule {
            ColumnConstraintNode::NotNull => Ok(()),
            ColumnConstraintNode::PrimaryKey { word } => {
                if keyed {
                    return Err(SchemaError::Name { at: word.start });
                }
                Ok(())
            }
            ColumnConstraintNode::Unique => Ok(()),
            ColumnConstraintNode::References(target) => self.check_target(1, target),
        }
    }

    // Checks a column's constraints. `keyed` says whether the table has a primary key before the column.
    #[tactic(auto, using(crate::proofs::EarlierChecks::check_none))]
    fn check_rules(&self, keyed: bool, rules: &[ColumnConstraintNode]) -> Result<(), SchemaError>
        requires { All (IsColumnConstraintWith (IsLexemeOf self.now.text.now)) rules.now }
        ensures { IsNameCheckOf result (flat_map_with_all_earlier (rule_offences self.now.text.now self.now.tables.now keyed) rules.now) }
    {
        let mut keyed_here = keyed;
        'rules: for rule in rules {
            self.check_rule(keyed_here, rule)?;
            keyed_here = is_keyed_after_rule(keyed_here, rule);
        }
        Ok(())
    }

    /// Adds a name to the taken names. In ASCII upper case it has to differ from each taken name.
    #[tactic(auto, using(crate::proofs::NameIndexes::is_one_of_by_index))]
    pub fn take_name(&self, taken: &mut NameList, token: &Lexeme) -> Result<(), SchemaError>
        requires { IsNameWith (IsLexemeOf self.now.text.now) token.now }
        ensures offence { (before : List (List ℕ)) → taken.old ≡ map upper_case before
            → IsNameCheckOf result (list_if (is_taken (name_of self.now.text.now token.now) before) token.now.start) }
        ensures added { OnOk result (taken.new ≡ taken.old ++ upper_case (name_of self.now.text.now token.now) ∷ []) }
    {
        let name = name(self.alloc, self.text, token)?;
        let upper = name.as_str().to_ascii_uppercase(self.alloc)?;
        if taken.get(upper.as_str()).is_some() {
            return Err(SchemaError::Name { at: token.start });
        }
        taken.push(self.alloc, upper.as_str())?;
        Ok(())
    }

    // Checks a column. `keyed` says whether the table has a primary key before this column.
    #[tactic(auto, unfolding(crate::specs::Offences::column_offences))]
    fn check_column(
        &self,
        keyed: bool,
        taken: &mut NameList,
        column: &ColumnNode,
    ) -> Result<(), SchemaError>
        requires { IsColumnWith (IsLexemeOf self.now.text.now) column.now }
        ensures offence { (before : List Element) → keyed ≡ list_any is_primary before
            → taken.old ≡ map upper_case (column_names self.now.text.now before)
            → IsNameCheckOf result (column_offences self.now.text.now self.now.tables.now before column.now) }
        ensures added { OnOk result (taken.new ≡ taken.old ++ upper_case (name_of self.now.text.now column.now.name) ∷ []) }
    {
        self.take_name(taken, &column.name)?;
        self.check_rules(keyed, column.rules.as_slice())
    }

    // Checks a constraint of a table. `declared` are the table's columns. `keyed` says whether the table has a primary key before this constraint.
    #[tactic(auto, unfolding(crate::specs::Offences::table_rule_offences))]
    fn check_table_rule(
        &self,
        declared: &NameList,
        keyed: bool,
        rule: &TableConstraintNode,
    ) -> Result<(), SchemaError>
        requires { IsTableConstraintWith (IsLexemeOf self.now.text.now) rule.now }
        ensures { (before : List Element) → keyed ≡ list_any is_primary before
            → IsNameCheckOf result (table_rule_offences self.now.text.now self.now.tables.now declared.now before rule.now) }
    {
        match rule {
            TableConstraintNode::PrimaryKey { word, columns } => {
                if keyed {
                    return Err(SchemaError::Name { at: word.start });
                }
                check_list(self.alloc, self.text, declared, columns.as_slice())
            }
            TableConstraintNode::Unique { columns } => {
                check_list(self.alloc, self.text, declared, columns.as_slice())
            }
            TableConstraintNode::ForeignKey { columns, target } => {
                check_list(self.alloc, self.text, declared, columns.as_slice())?;
                self.check_target(columns.len(), target)
            }
        }
    }

    // Checks an element of a table. `declared` are the table's columns.
    #[tactic(auto, unfolding(crate::specs::Offences::element_offences))]
    fn check_element(
        &self,
        declared: &NameList,
        keyed: bool,
        taken: &mut NameList,
        element: &Element,
    ) -> Result<(), SchemaError>
        requires { IsElementWith (IsLexemeOf self.now.text.now) element.now }
        ensures offence { (before : List Element) → keyed ≡ list_any is_primary before
            → taken.old ≡ map upper_case (column_names self.now.text.now before)
            → IsNameCheckOf result (element_offences self.now.text.now self.now.tables.now declared.now before element.now) }
        ensures added { OnOk result (taken.new ≡ taken.old ++ map upper_case (column_names self.now.text.now (element.now ∷ []))) }
    {
        match element {
            Element::Column(column) => self.check_column(keyed, taken, column),
            Element::Rule(rule) => self.check_table_rule(declared, keyed, rule),
        }
    }

    /// Checks the elements of a table. `declared` are the table's columns.
    #[tactic(auto, using(crate::proofs::EarlierChecks::check_none))]
    pub fn check_elements(
        &self,
        declared: &NameList,
        elements: &[Element],
    ) -> Result<(), SchemaError>
        requires { All (IsElementWith (IsLexemeOf self.now.text.now)) elements.now }
        ensures { IsNameCheckOf result (flat_map_with_all_earlier (element_offences self.now.text.now self.now.tables.now declared.now) elements.now) }
    {
        let mut taken = NameList::new(self.alloc);
        let mut keyed = false;
        'elements: for element in elements {
            self.check_element(declared, keyed, &mut taken, element)?;
            keyed = is_keyed_after(keyed, element);
        }
        Ok(())
    }
}
