//! A law about all texts over a valid schema.
ghost use Rattle.std.specs.Prelude.{◌≢◌, ℕ, List, Result, Err};
ghost use Rattle.schema_types.specs.declared.types.Schema.{Schema};
ghost use Rattle.schema_types.specs.Validity.{IsValid};
ghost use Rattle.stats_file.specs.declared.types.StatsError.{StatsError};
ghost use Rattle.stats_file.specs.declared.types.StatsError.TheVariants as error;
ghost use Rattle.stats_file.specs.declared.types.StatsFile.{StatsFile};
ghost use Rattle.stats_file.specs.Answers.{IsAllowedResult};

/// Over a valid schema, each text has some result other than that memory ran out.
pub fn texts_are_answered()
    ensures { (schema : Schema) (text : List ℕ) → IsValid schema
        → (answer : Result StatsFile StatsError) × IsAllowedResult schema text answer × (answer ≢ Err error.NoMemory) }
{}
