//! Examples: the trees that small texts spell, and the bytes of syntax errors.
ghost use Rattle.ll_grammars.specs.Places.{IsSyntaxErrorAt};
ghost use Rattle.query_grammar.specs.Examples.{precedence, precedence_tree, grouped, grouped_tree, not_twice, inner_alone};
ghost use Rattle.query_grammar.specs.Grammar.{QuerySpecification};

/// In `SELECT * FROM R WHERE A=1 OR B=2 AND NOT C=3` AND binds tighter than OR, and NOT applies to one test.
/// `SELECT * FROM R WHERE (A=1 OR B=2) AND C=3` is grouped as its parentheses say.
/// The syntax error of `SELECT * FROM R WHERE NOT NOT A=1` is at its second NOT, at byte 26.
/// The syntax error of `SELECT * FROM R INNER S` is at the S, at byte 22, since JOIN has to follow INNER.
pub fn small_texts()
    ensures precedence { QuerySpecification precedence precedence_tree }
    ensures grouping { QuerySpecification grouped grouped_tree }
    ensures one_not { IsSyntaxErrorAt QuerySpecification not_twice 33 26 }
    ensures inner_join { IsSyntaxErrorAt QuerySpecification inner_alone 23 22 }
{}
