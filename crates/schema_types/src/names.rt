//! Checks the rules on names, table by table.
ghost use Rattle.std.specs.Prelude.{◌≡◌, ℕ, not, ◌||◌, [], ◌∷◌, ◌++◌, List, All, map, OnOk};
ghost use Rattle.sql_tokens.specs.Words.{IsLexemeOf, name_of};
ghost use Rattle.schema_grammar.specs.declared.tree.TableNode.{TableNode};
ghost use Rattle.schema_grammar.specs.Lexemes.{IsNameWith, IsTableWith};
ghost use Rattle.schema_types.specs.Declarations.{table_names};
ghost use Rattle.schema_types.specs.Index.{table_index};
ghost use Rattle.schema_types.specs.Offences.{is_taken, table_offences, offences};
ghost use Rattle.schema_types.specs.Finds.{IsNameCheckOf};
ghost use Rattle.schema_types.specs.Names.{list_if};
ghost use Rattle.schema_types.specs.Validity.{upper_case, has_only_word_bytes};

use crate::SchemaError;
use crate::index::TableIndex;
use crate::name_list::NameList;
use crate::scope::Scope;
use ll_grammars::Lexeme;
use schema_grammar::TableNode;
use sql_tokens::name;

// Whether a name has only ASCII letters, digits and underscores.
fn has_only_word_bytes(name: &str) -> bool
    ensures { result ≡ has_only_word_bytes name.now }
{
    name.as_bytes()
        .iter()
        .all(|c| c.is_ascii_alphanumeric() || *c == b'_')
}

impl Scope<'_> {
    // Checks a table's name, and adds it to the taken names.
    fn check_table_name(&self, taken: &mut NameList, token: &Lexeme) -> Result<(), SchemaError>
        requires { IsNameWith (IsLexemeOf self.now.text.now) token.now }
        ensures offence { (before : List (List ℕ)) → taken.old ≡ map upper_case before
            → IsNameCheckOf result
            (list_if (not (has_only_word_bytes (name_of self.now.text.now token.now)) || is_taken (name_of self.now.text.now token.now) before)
            token.now.start) }
        ensures added { OnOk result (taken.new ≡ taken.old ++ upper_case (name_of self.now.text.now token.now) ∷ []) }
    {
        let name = name(self.alloc, self.text, token)?;
        if !has_only_word_bytes(name.as_str()) {
            return Err(SchemaError::Name { at: token.start });
        }
        self.take_name(taken, token)
    }

    // Checks a table, given its index.
    #[tactic(auto, unfolding(crate::specs::Offences::table_offences, crate::specs::Index::table_index))]
    fn check_table(
        &self,
        taken: &mut NameList,
        table: &TableNode,
        index: &TableIndex,
    ) -> Result<(), SchemaError>
        requires tokens { IsTableWith (IsLexemeOf self.now.text.now) table.now }
        requires indexed { index.now ≡ table_index self.now.text.now table.now }
        ensures offence { (before : List TableNode) → taken.old ≡ map upper_case (table_names self.now.text.now before)
            → IsNameCheckOf result (table_offences self.now.text.now self.now.tables.now before table.now) }
        ensures added { OnOk result (taken.new ≡ taken.old ++ upper_case (name_of self.now.text.now table.now.name) ∷ []) }
    {
        self.check_table_name(taken, &table.name)?;
        self.check_elements(&index.columns, table.elements.as_slice())
    }

    /// Checks all rules on names.
    #[tactic(auto, using(crate::proofs::EarlierChecks::check_none), unfolding(crate::specs::Offences::offences))]
    pub fn check_names(&self) -> Result<(), SchemaError>
        requires { All (IsTableWith (IsLexemeOf self.now.text.now)) self.now.tables.now }
        ensures { IsNameCheckOf result (offences self.now.text.now self.now.tables.now) }
    {
        let mut taken = NameList::new(self.alloc);
        'tables: for (i, table) in self.tables.iter().enumerate() {
            self.check_table(&mut taken, table, self.indexes.get(i))?;
        }
        Ok(())
    }
}
