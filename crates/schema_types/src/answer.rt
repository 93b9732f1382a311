//! Makes the schema of the tables, or finds the first refusal.
ghost use Rattle.std.specs.Prelude.{All, Ok};
ghost use Rattle.sql_tokens.specs.Words.{IsLexemeOf};
ghost use Rattle.schema_grammar.specs.Lexemes.{IsTableWith};
ghost use Rattle.schema_types.specs.Answers.{Answers};
ghost use Rattle.schema_types.specs.Meaning.{if_within_limits, schema_of, schema_or_refusal};

use crate::SchemaError;
use crate::scope::Scope;
use crate::types::Schema;
use schema_grammar::TableNode;
use std::alloc::Global;

impl Scope<'_> {
    // The schema, or a refusal with the first limit that is exceeded.
    #[tactic(auto, unfolding(crate::specs::Meaning::if_within_limits))]
    fn limited(&self) -> Result<Schema, SchemaError>
        requires { All (IsTableWith (IsLexemeOf self.now.text.now)) self.now.tables.now }
        ensures { Answers result (if_within_limits self.now.text.now self.now.tables.now
            (Ok (schema_of self.now.text.now self.now.tables.now))) }
    {
        self.check_table_count()?;
        self.check_column_counts()?;
        self.check_text_lengths()?;
        let schema = self.schema()?;
        Ok(schema)
    }

    // The schema, or the first refusal: for a name, for a column that may be null, or for a limit.
    #[tactic(auto, unfolding(crate::specs::Meaning::schema_or_refusal))]
    fn answer(&self) -> Result<Schema, SchemaError>
        requires { All (IsTableWith (IsLexemeOf self.now.text.now)) self.now.tables.now }
        ensures { Answers result (schema_or_refusal self.now.text.now self.now.tables.now) }
    {
        self.check_names()?;
        self.check_nullability()?;
        self.limited()
    }
}

/// The schema of these tables, or the first refusal in the order Name, Nullable, Limit.
pub fn bind(alloc: Global, text: &[u8], tables: &[TableNode]) -> Result<Schema, SchemaError>
    requires { All (IsTableWith (IsLexemeOf text.now)) tables.now }
    ensures { Answers result (schema_or_refusal text.now tables.now) }
{
    let scope = Scope::new(alloc, text, tables)?;
    scope.answer()
}
