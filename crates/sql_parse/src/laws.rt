//! Laws of the results that a query text may have. These functions do nothing.
ghost use Rattle.std.specs.Prelude.{◌≡◌, ◌⊎◌, ℕ, List, Result, Ok, Err};
ghost use Rattle.schema_types.specs.declared.types.Schema.{Schema};
ghost use Rattle.query_types.specs.declared.types.Query.{Query};
ghost use Rattle.query_names.specs.declared.errors.QueryError.{QueryError};
ghost use Rattle.query_names.specs.declared.errors.QueryError.TheVariants as error;
ghost use Rattle.query_types.specs.Validity.{IsQueryOf};
ghost use Rattle.sql_parse.specs.Reading.{IsAnswer};

/// A query text has at most one result, apart from `NoMemory`.
pub fn one_answer()
    ensures { (schema : Schema) (text : List ℕ) (a b : Result Query QueryError) → IsAnswer schema text a → IsAnswer schema text b
        → (a ≡ Err error.NoMemory) ⊎ (b ≡ Err error.NoMemory) ⊎ (a ≡ b) }
{}

/// If the result for a text is a query, it is a query over the schema.
pub fn of_schema()
    ensures { (schema : Schema) (text : List ℕ) (query : Query) → IsAnswer schema text (Ok query) → IsQueryOf schema query }
{}
