//! Checks lists of columns in keys and references.
ghost use Rattle.std.specs.Prelude.{◌≡◌, [], ◌∷◌, ◌++◌, All, List, OnOk};
ghost use Rattle.ll_grammars.specs.declared.lexeme.Lexeme.{Lexeme};
ghost use Rattle.sql_tokens.specs.Words.{IsLexemeOf, name_of};
ghost use Rattle.schema_grammar.specs.Lexemes.{IsNameWith};
ghost use Rattle.schema_types.specs.Names.{names_of};
ghost use Rattle.schema_types.specs.Offences.{listed_offences, list_offences};
ghost use Rattle.schema_types.specs.Finds.{IsNameCheckOf};

use crate::SchemaError;
use crate::name_list::NameList;
use ll_grammars::Lexeme;
use sql_tokens::name;
use std::alloc::Global;

// Checks a column of a list, and adds its name to `earlier`, the names before it in the list.
#[tactic(auto, using(crate::proofs::NameIndexes::is_one_of_by_index), unfolding(crate::specs::Offences::listed_offences))]
fn check_listed(
    alloc: Global,
    text: &[u8],
    declared: &NameList,
    earlier: &mut NameList,
    column: &Lexeme,
) -> Result<(), SchemaError>
    requires { IsNameWith (IsLexemeOf text.now) column.now }
    ensures offence { (before : List Lexeme) → earlier.old ≡ names_of text.now before
        → IsNameCheckOf result (listed_offences text.now declared.now before column.now) }
    ensures added { OnOk result (earlier.new ≡ earlier.old ++ name_of text.now column.now ∷ []) }
{
    let name = name(alloc, text, column)?;
    let missing = declared.get(name.as_str()).is_none();
    let twice = earlier.get(name.as_str()).is_some();
    if missing || twice {
        return Err(SchemaError::Name { at: column.start });
    }
    earlier.push(alloc, name.as_str())?;
    Ok(())
}

/// Checks a list of columns: the table declares each column, and no column is in the list twice.
#[tactic(auto, using(crate::proofs::EarlierChecks::check_none), unfolding(crate::specs::Offences::list_offences))]
pub fn check_list(
    alloc: Global,
    text: &[u8],
    declared: &NameList,
    columns: &[Lexeme],
) -> Result<(), SchemaError>
    requires { All (IsNameWith (IsLexemeOf text.now)) columns.now }
    ensures { IsNameCheckOf result (list_offences text.now declared.now columns.now) }
{
    let mut earlier = NameList::new(alloc);
    'columns: for column in columns {
        check_listed(alloc, text, declared, &mut earlier, column)?;
    }
    Ok(())
}
