//! Laws of the results for texts. The functions do nothing when they run.
ghost use Rattle.std.specs.Prelude.{◌≡◌, ◌≢◌, ◌≤◌, ◌⊎◌, ℕ, List, length, Result, Ok, Err};
ghost use Rattle.limits.specs.Profile.{most_conjuncts, most_outputs};
ghost use Rattle.schema_types.specs.declared.errors.SchemaError.{SchemaError};
ghost use Rattle.schema_types.specs.declared.errors.SchemaError.TheVariants as schema_error;
ghost use Rattle.schema_types.specs.declared.types.Schema.{Schema};
ghost use Rattle.schema_types.specs.Texts.{IsSchemaOf};
ghost use Rattle.schema_types.specs.Validity.{IsValid};
ghost use Rattle.query_types.specs.declared.types.Query.{Query};
ghost use Rattle.query_types.specs.Validity.{IsQueryOf};
ghost use Rattle.query_names.specs.declared.errors.QueryError.{QueryError};
ghost use Rattle.query_names.specs.declared.errors.QueryError.TheVariants as query_error;
ghost use Rattle.sql_parse.specs.Reading.{IsAnswer};
ghost use Rattle.text_answers.specs.SchemaTexts.{schema_answer};
ghost use Rattle.text_answers.specs.QueryTexts.{query_answer};

/// A schema text has exactly one result, `schema_answer`, unless memory runs out. If it is a schema, the schema is valid.
pub fn schema_texts()
    ensures allowed { (text : List ℕ) → IsSchemaOf text (schema_answer text) }
    ensures only { (text : List ℕ) (answer : Result Schema SchemaError) → IsSchemaOf text answer
        → (answer ≡ Err schema_error.NoMemory) ⊎ (answer ≡ schema_answer text) }
    ensures never_out_of_memory { (text : List ℕ) → schema_answer text ≢ Err schema_error.NoMemory }
    ensures valid { (text : List ℕ) (schema : Schema) → schema_answer text ≡ Ok schema → IsValid schema }
{}

/// A query text over a schema has exactly one result, `query_answer`, unless memory runs out. If it is a query, it is a query over the schema.
pub fn query_texts()
    ensures allowed { (schema : Schema) (text : List ℕ) → IsAnswer schema text (query_answer schema text) }
    ensures only { (schema : Schema) (text : List ℕ) (answer : Result Query QueryError) → IsAnswer schema text answer
        → (answer ≡ Err query_error.NoMemory) ⊎ (answer ≡ query_answer schema text) }
    ensures never_out_of_memory { (schema : Schema) (text : List ℕ) → query_answer schema text ≢ Err query_error.NoMemory }
    ensures of_schema { (schema : Schema) (text : List ℕ) (query : Query) → query_answer schema text ≡ Ok query → IsQueryOf schema query }
{}

/// A query that `query_answer` gives has at most 256 conjuncts and 1,024 outputs. So has each query that the contract of `read_query` allows.
pub fn query_limits()
    ensures few_conjuncts { (schema : Schema) (text : List ℕ) (query : Query) → query_answer schema text ≡ Ok query
        → length query.conjuncts ≤ most_conjuncts }
    ensures few_outputs { (schema : Schema) (text : List ℕ) (query : Query) → query_answer schema text ≡ Ok query
        → length query.select ≤ most_outputs }
    ensures read_conjuncts { (schema : Schema) (text : List ℕ) (query : Query) → IsAnswer schema text (Ok query)
        → length query.conjuncts ≤ most_conjuncts }
    ensures read_outputs { (schema : Schema) (text : List ℕ) (query : Query) → IsAnswer schema text (Ok query)
        → length query.select ≤ most_outputs }
{}
