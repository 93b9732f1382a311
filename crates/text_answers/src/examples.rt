//! Examples: the results for small texts.
ghost use Rattle.std.specs.Prelude.{◌≡◌, Ok, Err, [], ◌∷◌, codes};
ghost use Rattle.schema_types.specs.declared.errors.LimitKind.TheVariants as limit;
ghost use Rattle.schema_types.specs.declared.errors.SchemaError.TheVariants as schema_error;
ghost use Rattle.query_names.specs.declared.errors.QueryError.TheVariants as query_error;
ghost use Rattle.text_answers.specs.SmallTexts.{one_column, where_x_is_one};
ghost use Rattle.text_answers.specs.SchemaTexts.{schema_answer};
ghost use Rattle.text_answers.specs.QueryTexts.{query_answer};

/// Results for small schema texts. Names are tested first, then nullable columns, then limits.
pub fn small_schemas()
    ensures whole { schema_answer (codes "CREATE TABLE R (X INTEGER NOT NULL);") ≡ Ok one_column }
    ensures bad_byte { schema_answer (239 ∷ 187 ∷ 191 ∷ 255 ∷ []) ≡ Err (schema_error.Syntax 3) }
    ensures no_token { schema_answer (codes "FOO $") ≡ Err (schema_error.Syntax 4) }
    ensures no_length { schema_answer (codes "CREATE TABLE R (X VARCHAR(0) NOT NULL)") ≡ Err (schema_error.Syntax 26) }
    ensures one_name_twice { schema_answer (codes "CREATE TABLE R (X INTEGER, x INTEGER)") ≡ Err (schema_error.Name 27) }
    ensures may_be_null { schema_answer (codes "CREATE TABLE R (X INTEGER)") ≡ Err (schema_error.Nullable 16) }
    ensures too_long { schema_answer (codes "CREATE TABLE R (X VARCHAR(1000001) NOT NULL)")
        ≡ Err (schema_error.Limit limit.TextLength 1000001) }
{}

/// Results for small query texts over a schema with one column. A number outside the range is refused if the syntax error comes after it. FROM is
/// tested before the outputs. A column name without a table must be the name of a column of exactly one entry.
pub fn small_queries()
    ensures whole { query_answer one_column (codes "SELECT X FROM R WHERE X = 1") ≡ Ok where_x_is_one }
    ensures other_kind { query_answer one_column (codes "SELECT X FROM R WHERE X = 'a'") ≡ Err (query_error.Kind 26) }
    ensures number_first { query_answer one_column (codes "SELECT X FROM R WHERE X = 9223372036854775808 )") ≡ Err (query_error.Syntax 26) }
    ensures from_first { query_answer one_column (codes "SELECT Y FROM R, R") ≡ Err (query_error.Name 17) }
    ensures of_two_entries { query_answer one_column (codes "SELECT X FROM R, R S") ≡ Err (query_error.Name 7) }
{}
