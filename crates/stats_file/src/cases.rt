//! Small examples of the lines and the text of a statistics file.
ghost use Rattle.std.specs.Prelude.{◌≡◌, ◌-◌, ◌^◌, ◌∷◌, [], codes, negsuc};
ghost use Rattle.std.specs.List.{concat};
ghost use Rattle.stats_file.specs.declared.types.Datum.TheVariants as datum;
ghost use Rattle.stats_file.specs.Cases.{stats_without_rows, number_table, schema_of_e, six_rows};
ghost use Rattle.stats_file.specs.FileText.{file_text, pair_lines};
ghost use Rattle.stats_file.specs.Lines.{cut_line, hex_text, run_text, runs_text};
ghost use Rattle.stats_file.specs.Rules.{KeepsRules};
ghost use Rattle.stats_file.specs.Runs.{run_of, runs_of};

/// The texts of a file without rows, of the lines of a pair, and of single lines and words. The function does nothing; its contract has the examples.
pub fn examples()
    ensures no_rows { file_text schema_of_e stats_without_rows ≡ codes "safebound-stats 1 1\ntable x45 0\npair x58 x58\nwhole -\nrest -\nend\n" }
    ensures keeps { KeepsRules schema_of_e stats_without_rows }
    ensures six { concat (pair_lines (number_table (codes "R")) six_rows)
        ≡ codes "pair x58 x58\nwhole 3*2\nfrequent 1 3*1\nfrequent 2 2*1\nfrequent 3 1*1\nrest -\n" }
    ensures bytes { hex_text (255 ∷ 10 ∷ 122 ∷ []) ≡ codes "xff0a7a" }
    ensures no_bytes { cut_line (datum.Text []) ≡ codes "cut x\n" }
    ensures least { cut_line (datum.Int (negsuc (2 ^ 63 - 1))) ≡ codes "cut -9223372036854775808\n" }
    ensures greatest { run_text (run_of (2 ^ 128 - 1) (2 ^ 64 - 1))
        ≡ codes "340282366920938463463374607431768211455*18446744073709551615" }
    ensures none { runs_text [] ≡ codes "-" }
    ensures runs { runs_text (runs_of (5 ∷ 5 ∷ 2 ∷ 1 ∷ 1 ∷ 1 ∷ [])) ≡ codes "5*2 2*1 1*3" }
{}
