//! Laws of schema texts and their results. These functions do nothing.
ghost use Rattle.std.specs.Prelude.{◌≡◌, ◌≢◌, ℕ, List, Result, Ok, Err};
ghost use Rattle.schema_types.specs.declared.errors.SchemaError.{SchemaError};
ghost use Rattle.schema_types.specs.declared.errors.SchemaError.TheVariants as error;
ghost use Rattle.schema_types.specs.declared.types.Schema.{Schema};
ghost use Rattle.schema_types.specs.Texts.{IsSchemaOf};
ghost use Rattle.schema_types.specs.Validity.{IsValid};

/// A schema text has at most one result, apart from `NoMemory`.
pub fn one_answer()
    ensures { (text : List ℕ) (a b : Result Schema SchemaError) → IsSchemaOf text a → IsSchemaOf text b → a ≢ Err error.NoMemory
        → b ≢ Err error.NoMemory → a ≡ b }
{}

/// The schema of a text is valid.
pub fn schemas_are_valid()
    ensures { (text : List ℕ) (schema : Schema) → IsSchemaOf text (Ok schema) → IsValid schema }
{}
