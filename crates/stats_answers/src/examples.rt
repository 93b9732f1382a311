//! The results for two small texts.
ghost use Rattle.std.specs.Prelude.{◌≡◌, Ok, Err, codes};
ghost use Rattle.stats_file.specs.declared.types.StatsError.TheVariants as error;
ghost use Rattle.stats_file.specs.Cases.{stats_without_rows, schema_of_e};
ghost use Rattle.stats_answers.specs.StatsTexts.{stats_answer};

/// The results for two texts. The first text has one table without rows, with one pair: the column X with itself. The second text is the first one
/// without its last line.
pub fn small_texts()
    ensures complete_text { stats_answer schema_of_e (codes "safebound-stats 1 1\ntable x45 0\npair x58 x58\nwhole -\nrest -\nend\n") ≡ Ok stats_without_rows }
    ensures text_without_last_line { stats_answer schema_of_e (codes "safebound-stats 1 1\ntable x45 0\npair x58 x58\nwhole -\nrest -\n") ≡ Err (error.Syntax 6) }
{}
