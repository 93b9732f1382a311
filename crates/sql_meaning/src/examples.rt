//! What the definitions give for small tables, as theorems that are proved by computation.
ghost use Rattle.std.specs.Prelude.{◌≡◌, ◌∷◌, [], codes, pos};
ghost use Rattle.std.specs.declared.cmp.Ordering.TheVariants.{Less, Greater};
ghost use Rattle.csv_tables.specs.Values.{Int, Text, value_cmp};
ghost use Rattle.query_grammar.specs.declared.tree.Op.TheVariants as op;
ghost use Rattle.query_types.specs.declared.types.Cond.{Or};
ghost use Rattle.sql_meaning.specs.Answers.{answer, chosen};
ghost use Rattle.sql_meaning.specs.Databases.{IsDatabaseOf};
ghost use Rattle.sql_meaning.specs.Examples.{from_three_to_one, not_in_one_three, one_two_three, rows_where, triangle, triangle_tables, x_is};
ghost use Rattle.sql_meaning.specs.Tables.{tables_of};

/// Conditions over a table of one column: row 0 has the value 1, row 1 the value 2 and row 2 the value 3. The results are row numbers.
pub fn filters()
    ensures not_in { rows_where one_two_three not_in_one_three ≡ 1 ∷ [] }
    ensures ends_swapped { rows_where one_two_three from_three_to_one ≡ [] }
    ensures thrice { rows_where one_two_three (Or (x_is op.Eq 2 ∷ x_is op.Eq 2 ∷ x_is op.Eq 2 ∷ [])) ≡ 1 ∷ [] }
    ensures up_to { rows_where one_two_three (x_is op.Le 2) ≡ 0 ∷ 1 ∷ [] }
    ensures below { rows_where one_two_three (x_is op.Lt 2) ≡ 0 ∷ [] }
    ensures above { rows_where one_two_three (x_is op.Gt 2) ≡ 2 ∷ [] }
    ensures absent { rows_where one_two_three (x_is op.Eq 4) ≡ [] }
    ensures other { rows_where one_two_three (x_is op.Ne 2) ≡ 0 ∷ 2 ∷ [] }
{}

/// Texts compare by code points, without padding.
pub fn texts()
    ensures letters { value_cmp (Text (codes "Z")) (Text (codes "a")) ≡ Less }
    ensures longer { value_cmp (Text (codes "a")) (Text (codes "a ")) ≡ Less }
    // U+FFFF comes before U+10000
    ensures planes { value_cmp (Text (239 ∷ 191 ∷ 191 ∷ [])) (Text (240 ∷ 144 ∷ 128 ∷ 128 ∷ [])) ≡ Less }
    // U+00E9 comes after the letter z
    ensures accent { value_cmp (Text (195 ∷ 169 ∷ [])) (Text (codes "z")) ≡ Greater }
{}

/// Each two of three tables are joined, in a triangle. Four of the 27 choices satisfy every conjunct.
pub fn triangles()
    ensures fits { IsDatabaseOf triangle triangle_tables }
    ensures chosen { chosen triangle (tables_of triangle_tables)
        ≡ (0 ∷ 0 ∷ 0 ∷ []) ∷ (0 ∷ 1 ∷ 1 ∷ []) ∷ (1 ∷ 0 ∷ 2 ∷ []) ∷ (2 ∷ 2 ∷ 0 ∷ []) ∷ [] }
    ensures answer { answer triangle (tables_of triangle_tables)
        ≡ (Int (pos 1) ∷ Int (pos 1) ∷ Int (pos 1) ∷ []) ∷ (Int (pos 1) ∷ Int (pos 2) ∷ Int (pos 1) ∷ [])
        ∷ (Int (pos 1) ∷ Int (pos 1) ∷ Int (pos 2) ∷ []) ∷ (Int (pos 2) ∷ Int (pos 1) ∷ Int (pos 1) ∷ []) ∷ [] }
{}
