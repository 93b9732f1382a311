//! Finds and checks the targets of references.
ghost use Rattle.std.specs.Prelude.{◌≡◌, IfOk, Some, option_map};
ghost use Rattle.std.specs.Option.{option_copied};
ghost use Rattle.sql_tokens.specs.Words.{IsLexemeOf};
ghost use Rattle.schema_grammar.specs.declared.tree.TableNode.{TableNode};
ghost use Rattle.schema_grammar.specs.Lexemes.{IsTargetWith};
ghost use Rattle.schema_types.specs.Declarations.{target_table};
ghost use Rattle.schema_types.specs.Index.{table_index};
ghost use Rattle.schema_types.specs.Offences.{target_offences, target_offences_in};
ghost use Rattle.schema_types.specs.Finds.{IsNameCheckOf};

use crate::SchemaError;
use crate::index::TableIndex;
use crate::lists::check_list;
use crate::scope::Scope;
use base_io::NoMemory;
use schema_grammar::TargetNode;

impl Scope<'_> {
    /// The `TableIndex` of the table that a reference refers to: the first table with the name in the reference.
    #[tactic(auto, using(crate::proofs::Targets::no_target, crate::proofs::Targets::target_found, crate::proofs::NameIndexes::place_of_within))]
    pub fn target(&self, target: &TargetNode) -> Result<Option<&TableIndex>, NoMemory>
        requires { IsTargetWith (IsLexemeOf self.now.text.now) target.now }
        ensures { IfOk result (λ found.
            option_copied found
            ≡ option_map (table_index self.now.text.now) (target_table self.now.text.now self.now.tables.now target.now)) }
    {
        match self.table_number(&target.table)? {
            None => Ok(None),
            Some(place) => Ok(Some(self.indexes.get(place as usize))),
        }
    }

    // Checks the columns that a reference refers to. `table` is the `TableIndex` of the target table. A reference from `count` columns has to refer
    // to `count` columns.
    #[tactic(auto, unfolding(crate::specs::Index::table_index))]
    fn check_target_columns(
        &self,
        count: usize,
        target: &TargetNode,
        table: &TableIndex,
    ) -> Result<(), SchemaError>
        requires { IsTargetWith (IsLexemeOf self.now.text.now) target.now }
        ensures { (declared : TableNode) → table.now ≡ table_index self.now.text.now declared
            → IsNameCheckOf result (target_offences_in self.now.text.now count target.now (Some declared)) }
    {
        let at = target.table.start;
        match &target.columns {
            Some(columns) => {
                if columns.len() != count {
                    return Err(SchemaError::Name { at });
                }
                check_list(self.alloc, self.text, &table.columns, columns.as_slice())
            }
            None => match &table.key {
                None => Err(SchemaError::Name { at }),
                Some(key) => {
                    if key.len() != count {
                        return Err(SchemaError::Name { at });
                    }
                    Ok(())
                }
            },
        }
    }

    /// Checks a reference from `count` columns.
    pub fn check_target(&self, count: usize, target: &TargetNode) -> Result<(), SchemaError>
        requires { IsTargetWith (IsLexemeOf self.now.text.now) target.now }
        ensures { IsNameCheckOf result (target_offences self.now.text.now self.now.tables.now count target.now) }
    {
        match self.target(target)? {
            None => Err(SchemaError::Name {
                at: target.table.start,
            }),
            Some(table) => self.check_target_columns(count, target, table),
        }
    }
}
