//! Examples of command lines, with the command that each asks for.
ghost use Rattle.std.specs.Prelude.{◌≡◌, Some, None, [], ◌∷◌, codes, false, true};
ghost use Rattle.safebound_words.specs.Answer.{command_of};
ghost use Rattle.safebound_words.specs.Commands.{demo_of, over_query, plan_by, plan_work, terms_by, append_command};
ghost use Rattle.safebound_words.specs.declared.command.ListSource.TheVariants as sources;
ghost use Rattle.safebound_words.specs.declared.command.OutText.TheVariants as out_text;
ghost use Rattle.safebound_words.specs.declared.command.QueryTask.TheVariants as query_tasks;

/// Command lines with positional words: arguments that are neither options nor flags, and no option's value. The function does nothing; its contract
/// has the examples.
pub fn small_commands()
    ensures run { command_of (codes "run" ∷ codes "s" ∷ codes "q" ∷ []) ≡ Some (over_query None (codes "s") (codes "q") (plan_by out_text.Rows 1000000 1 false false false None)) }
    ensures audit { command_of (codes "audit" ∷ codes "s" ∷ codes "q" ∷ []) ≡ Some (over_query None (codes "s") (codes "q") (plan_by out_text.Audit 1000000 1 false false false None)) }
    ensures dash { command_of (codes "plan" ∷ codes "-" ∷ codes "q" ∷ []) ≡ Some (over_query None (codes "-") (codes "q") (plan_by out_text.Nothing 1000000 1 false false false None)) }
    ensures empty { command_of (codes "plan" ∷ [] ∷ codes "q" ∷ []) ≡ Some (over_query None [] (codes "q") (plan_by out_text.Nothing 1000000 1 false false false None)) }
    ensures number { command_of (codes "demo" ∷ codes "7" ∷ []) ≡ Some (demo_of 7) }
    ensures zeros { command_of (codes "demo" ∷ codes "007" ∷ []) ≡ Some (demo_of 7) }
    ensures last_number { command_of (codes "demo" ∷ codes "4294967295" ∷ []) ≡ Some (demo_of 4294967295) }

    // After `--` every word is a positional word, even a second `--`.
    ensures behind { command_of (codes "run" ∷ codes "--" ∷ codes "--budget" ∷ codes "--" ∷ [])
        ≡ Some (over_query None (codes "--budget") (codes "--") (plan_by out_text.Rows 1000000 1 false false false None)) }
    ensures value_behind { command_of (codes "run" ∷ codes "--budget" ∷ codes "5" ∷ codes "--" ∷ codes "--budget" ∷ codes "6" ∷ [])
        ≡ Some (over_query None (codes "--budget") (codes "6") (plan_by out_text.Rows 5 1 false false false None)) }
    ensures number_behind { command_of (codes "demo" ∷ codes "--" ∷ codes "7" ∷ []) ≡ Some (demo_of 7) }
{}

/// Command lines with options. The function does nothing; its contract has the examples.
pub fn small_options()
    ensures joined { command_of (codes "run" ∷ codes "--budget=12" ∷ codes "--" ∷ codes "s" ∷ codes "q" ∷ [])
        ≡ Some (over_query None (codes "s") (codes "q") (plan_by out_text.Rows 12 1 false false false None)) }
    ensures beside { command_of (codes "plan" ∷ codes "s" ∷ codes "--accuracy" ∷ codes "64" ∷ codes "q" ∷ codes "--budget" ∷ codes "007"
        ∷ [])
        ≡ Some (over_query None (codes "s") (codes "q") (plan_by out_text.Nothing 7 64 false false false None)) }
    ensures most { command_of (codes "audit" ∷ codes "s" ∷ codes "q" ∷ codes "--budget" ∷ codes "20000000" ∷ [])
        ≡ Some (over_query None (codes "s") (codes "q") (plan_by out_text.Audit 20000000 1 false false false None)) }
    ensures past_most { command_of (codes "audit" ∷ codes "s" ∷ codes "q" ∷ codes "--budget" ∷ codes "20000001" ∷ []) ≡ None }
    ensures no_rows { command_of (codes "run" ∷ codes "s" ∷ codes "q" ∷ codes "--budget" ∷ codes "0" ∷ []) ≡ None }
    ensures least { command_of (codes "run" ∷ codes "s" ∷ codes "q" ∷ codes "--accuracy=0" ∷ []) ≡ None }
    ensures past_accuracy { command_of (codes "run" ∷ codes "s" ∷ codes "q" ∷ codes "--accuracy" ∷ codes "65" ∷ []) ≡ None }
    ensures twice { command_of (codes "run" ∷ codes "--budget" ∷ codes "12" ∷ codes "s" ∷ codes "q" ∷ codes "--budget=12" ∷ []) ≡ None }

    // An option's value is the next word, even if this word is `--`.
    ensures next_word { command_of (codes "run" ∷ codes "s" ∷ codes "q" ∷ codes "--budget" ∷ codes "--" ∷ []) ≡ None }
    ensures no_word { command_of (codes "run" ∷ codes "s" ∷ codes "q" ∷ codes "--budget" ∷ []) ≡ None }
    ensures no_digit { command_of (codes "run" ∷ codes "s" ∷ codes "q" ∷ codes "--budget=" ∷ []) ≡ None }
    ensures wide { command_of (codes "run" ∷ codes "s" ∷ codes "q" ∷ codes "--budget=99999999999999999999" ∷ []) ≡ None }
    ensures sign { command_of (codes "run" ∷ codes "s" ∷ codes "q" ∷ codes "--budget=+5" ∷ []) ≡ None }
{}

/// Command lines that are refused. The function does nothing; its contract has the examples.
pub fn small_refusals()
    ensures no_words { command_of [] ≡ None }
    ensures help { command_of (codes "--help" ∷ []) ≡ None }
    ensures no_query { command_of (codes "run" ∷ codes "s" ∷ []) ≡ None }
    ensures one_too_many { command_of (codes "run" ∷ codes "s" ∷ codes "q" ∷ codes "r" ∷ []) ≡ None }
    ensures version { command_of (codes "run" ∷ codes "s" ∷ codes "q" ∷ codes "--version" ∷ []) ≡ None }
    ensures letter_case { command_of (codes "run" ∷ codes "s" ∷ codes "q" ∷ codes "--Budget=5" ∷ []) ≡ None }
    ensures short { command_of (codes "run" ∷ codes "-b" ∷ codes "s" ∷ codes "q" ∷ []) ≡ None }
    ensures two_numbers { command_of (codes "demo" ∷ codes "7" ∷ codes "8" ∷ []) ≡ None }
    ensures past_number { command_of (codes "demo" ∷ codes "4294967296" ∷ []) ≡ None }
    ensures without_number { command_of (codes "demo" ∷ []) ≡ None }
    ensures empty_number { command_of (codes "demo" ∷ [] ∷ []) ≡ None }
    ensures no_number { command_of (codes "demo" ∷ codes "7x" ∷ []) ≡ None }
    ensures no_option { command_of (codes "demo" ∷ codes "7" ∷ codes "--budget" ∷ codes "12" ∷ []) ≡ None }
{}

/// Command lines with `--reduce`. The function does nothing; its contract has the examples.
pub fn small_flags()
    ensures behind { command_of (codes "run" ∷ codes "s" ∷ codes "q" ∷ codes "--reduce" ∷ [])
        ≡ Some (over_query None (codes "s") (codes "q") (plan_by out_text.Rows 1000000 1 true false false None)) }
    ensures in_front { command_of (codes "plan" ∷ codes "--reduce" ∷ codes "s" ∷ codes "q" ∷ codes "--budget" ∷ codes "5" ∷ [])
        ≡ Some (over_query None (codes "s") (codes "q") (plan_by out_text.Nothing 5 1 true false false None)) }
    ensures between { command_of (codes "audit" ∷ codes "s" ∷ codes "--accuracy=8" ∷ codes "--reduce" ∷ codes "q" ∷ [])
        ≡ Some (over_query None (codes "s") (codes "q") (plan_by out_text.Audit 1000000 8 true false false None)) }
    ensures positional_word { command_of (codes "run" ∷ codes "--" ∷ codes "--reduce" ∷ codes "q" ∷ [])
        ≡ Some (over_query None (codes "--reduce") (codes "q") (plan_by out_text.Rows 1000000 1 false false false None)) }
    ensures twice { command_of (codes "run" ∷ codes "--reduce" ∷ codes "s" ∷ codes "q" ∷ codes "--reduce" ∷ []) ≡ None }
    ensures value { command_of (codes "run" ∷ codes "s" ∷ codes "q" ∷ codes "--reduce=1" ∷ []) ≡ None }
    ensures value_behind { command_of (codes "run" ∷ codes "s" ∷ codes "q" ∷ codes "--reduce" ∷ codes "1" ∷ []) ≡ None }
    ensures as_a_value { command_of (codes "run" ∷ codes "s" ∷ codes "q" ∷ codes "--budget" ∷ codes "--reduce" ∷ []) ≡ None }
    ensures of_demo { command_of (codes "demo" ∷ codes "7" ∷ codes "--reduce" ∷ []) ≡ None }
    ensures letter_case { command_of (codes "run" ∷ codes "s" ∷ codes "q" ∷ codes "--Reduce" ∷ []) ≡ None }
{}

/// Command lines with `--bushy`. The function does nothing; its contract has the examples.
pub fn small_trees()
    ensures behind { command_of (codes "run" ∷ codes "s" ∷ codes "q" ∷ codes "--bushy" ∷ [])
        ≡ Some (over_query None (codes "s") (codes "q") (plan_by out_text.Rows 1000000 1 false true false None)) }
    ensures reduced { command_of (codes "audit" ∷ codes "--bushy" ∷ codes "s" ∷ codes "--reduce" ∷ codes "q" ∷ [])
        ≡ Some (over_query None (codes "s") (codes "q") (plan_by out_text.Audit 1000000 1 true true false None)) }
    ensures most { command_of (codes "plan" ∷ codes "--bushy" ∷ codes "s" ∷ codes "q" ∷ codes "--budget=4000000" ∷ [])
        ≡ Some (over_query None (codes "s") (codes "q") (plan_by out_text.Nothing 4000000 1 false true false None)) }
    ensures past_most { command_of (codes "plan" ∷ codes "--budget=4000001" ∷ codes "s" ∷ codes "q" ∷ codes "--bushy" ∷ []) ≡ None }
    ensures of_orders { command_of (codes "plan" ∷ codes "--budget=4000001" ∷ codes "s" ∷ codes "q" ∷ [])
        ≡ Some (over_query None (codes "s") (codes "q") (plan_by out_text.Nothing 4000001 1 false false false None)) }
    ensures twice { command_of (codes "run" ∷ codes "--bushy" ∷ codes "s" ∷ codes "q" ∷ codes "--bushy" ∷ []) ≡ None }
    ensures value { command_of (codes "run" ∷ codes "s" ∷ codes "q" ∷ codes "--bushy=1" ∷ []) ≡ None }
    ensures of_demo { command_of (codes "demo" ∷ codes "7" ∷ codes "--bushy" ∷ []) ≡ None }
{}

/// Command lines with `--keys`. The function does nothing; its contract has the examples.
pub fn small_keys()
    ensures behind { command_of (codes "run" ∷ codes "s" ∷ codes "q" ∷ codes "--keys" ∷ [])
        ≡ Some (over_query None (codes "s") (codes "q") (plan_by out_text.Rows 1000000 1 false false true None)) }
    ensures in_front { command_of (codes "plan" ∷ codes "--keys" ∷ codes "s" ∷ codes "q" ∷ codes "--budget=20000000" ∷ [])
        ≡ Some (over_query None (codes "s") (codes "q") (plan_by out_text.Nothing 20000000 1 false false true None)) }
    ensures between { command_of (codes "audit" ∷ codes "s" ∷ codes "--accuracy=8" ∷ codes "--keys" ∷ codes "q" ∷ codes "--memory=9" ∷ [])
        ≡ Some (over_query None (codes "s") (codes "q") (plan_by out_text.Audit 1000000 8 false false true (Some 9))) }
    ensures tree { command_of (codes "plan" ∷ codes "--bushy" ∷ codes "s" ∷ codes "q" ∷ codes "--keys" ∷ [])
        ≡ Some (over_query None (codes "s") (codes "q") (plan_by out_text.Nothing 1000000 1 false true true None)) }
    ensures past_most { command_of (codes "run" ∷ codes "--keys" ∷ codes "--budget=4000001" ∷ codes "s" ∷ codes "q" ∷ codes "--bushy" ∷ []) ≡ None }
    ensures twice { command_of (codes "run" ∷ codes "--keys" ∷ codes "s" ∷ codes "q" ∷ codes "--keys" ∷ []) ≡ None }
    ensures value { command_of (codes "run" ∷ codes "s" ∷ codes "q" ∷ codes "--keys=1" ∷ []) ≡ None }
    ensures of_demo { command_of (codes "demo" ∷ codes "7" ∷ codes "--keys" ∷ []) ≡ None }
    ensures of_stats { command_of (codes "stats" ∷ codes "s" ∷ codes "q" ∷ codes "--keys" ∷ []) ≡ None }

    // `--keys` can't be combined with `--reduce` or `--stats`.
    ensures reduced { command_of (codes "run" ∷ codes "--keys" ∷ codes "s" ∷ codes "q" ∷ codes "--reduce" ∷ []) ≡ None }
    ensures of_a_file { command_of (codes "plan" ∷ codes "s" ∷ codes "q" ∷ codes "--stats=f" ∷ codes "--keys" ∷ []) ≡ None }
{}

/// Command lines with `--count`. The function does nothing; its contract has the examples.
pub fn small_counts()
    ensures behind { command_of (codes "run" ∷ codes "s" ∷ codes "q" ∷ codes "--count" ∷ [])
        ≡ Some (over_query None (codes "s") (codes "q") (plan_work out_text.Rows 1000000 1 sources.Counted false None)) }
    ensures tree { command_of (codes "audit" ∷ codes "--count" ∷ codes "s" ∷ codes "q" ∷ codes "--bushy" ∷ codes "--budget=5" ∷ [])
        ≡ Some (over_query None (codes "s") (codes "q") (plan_work out_text.Audit 5 1 sources.Counted true None)) }
    ensures limit { command_of (codes "plan" ∷ codes "s" ∷ codes "--count" ∷ codes "q" ∷ codes "--memory=9" ∷ [])
        ≡ Some (over_query None (codes "s") (codes "q") (plan_work out_text.Nothing 1000000 1 sources.Counted false (Some 9))) }
    ensures past_most { command_of (codes "plan" ∷ codes "--budget=4000001" ∷ codes "s" ∷ codes "q" ∷ codes "--bushy" ∷ codes "--count" ∷ []) ≡ None }
    ensures twice { command_of (codes "run" ∷ codes "--count" ∷ codes "s" ∷ codes "q" ∷ codes "--count" ∷ []) ≡ None }
    ensures value { command_of (codes "run" ∷ codes "s" ∷ codes "q" ∷ codes "--count=1" ∷ []) ≡ None }
    ensures of_demo { command_of (codes "demo" ∷ codes "7" ∷ codes "--count" ∷ []) ≡ None }
    ensures of_stats { command_of (codes "stats" ∷ codes "s" ∷ codes "q" ∷ codes "--count" ∷ []) ≡ None }

    // `--count` can't be combined with `--reduce`, `--keys` or `--stats`. It can't be combined with `--accuracy` either, since it compresses nothing.
    ensures reduced { command_of (codes "run" ∷ codes "--count" ∷ codes "s" ∷ codes "q" ∷ codes "--reduce" ∷ []) ≡ None }
    ensures keyed { command_of (codes "plan" ∷ codes "--keys" ∷ codes "s" ∷ codes "q" ∷ codes "--count" ∷ []) ≡ None }
    ensures of_a_file { command_of (codes "plan" ∷ codes "s" ∷ codes "q" ∷ codes "--stats=f" ∷ codes "--count" ∷ []) ≡ None }
    ensures accuracy { command_of (codes "audit" ∷ codes "s" ∷ codes "q" ∷ codes "--count" ∷ codes "--accuracy" ∷ codes "1" ∷ []) ≡ None }
{}

/// Command lines with the command `stats`, and those with `plan` and `--stats`. The function does nothing; its contract has the examples.
pub fn small_statistics()
    ensures stats { command_of (codes "stats" ∷ codes "s" ∷ codes "q" ∷ codes "--accuracy" ∷ codes "8" ∷ []) ≡ Some (over_query None (codes "s") (codes "q") (query_tasks.WriteStats 8)) }
    ensures usual { command_of (codes "stats" ∷ codes "s" ∷ codes "q" ∷ []) ≡ Some (over_query None (codes "s") (codes "q") (query_tasks.WriteStats 1)) }
    ensures plan { command_of (codes "plan" ∷ codes "s" ∷ codes "q" ∷ codes "--stats" ∷ codes "f" ∷ codes "--budget=5" ∷ [])
        ≡ Some (over_query None (codes "s") (codes "q") (query_tasks.PlanFromStats (codes "f") (terms_by 5 false None))) }
    ensures joined { command_of (codes "plan" ∷ codes "--stats=a=b" ∷ codes "s" ∷ codes "q" ∷ [])
        ≡ Some (over_query None (codes "s") (codes "q") (query_tasks.PlanFromStats (codes "a=b") (terms_by 1000000 false None))) }

    // The file's name isn't empty, and doesn't begin with a dash.
    ensures no_name { command_of (codes "plan" ∷ codes "s" ∷ codes "q" ∷ codes "--stats=" ∷ []) ≡ None }
    ensures a_dash { command_of (codes "plan" ∷ codes "s" ∷ codes "q" ∷ codes "--stats=-f" ∷ []) ≡ None }
    ensures next_word { command_of (codes "plan" ∷ codes "s" ∷ codes "q" ∷ codes "--stats" ∷ codes "--budget=5" ∷ []) ≡ None }
    ensures two_files { command_of (codes "plan" ∷ codes "s" ∷ codes "q" ∷ codes "--stats=f" ∷ codes "--stats=f" ∷ []) ≡ None }

    // `--stats` can be combined with `--bushy`.
    ensures tree { command_of (codes "plan" ∷ codes "s" ∷ codes "q" ∷ codes "--stats=f" ∷ codes "--bushy" ∷ codes "--budget=5" ∷ [])
        ≡ Some (over_query None (codes "s") (codes "q") (query_tasks.PlanFromStats (codes "f") (terms_by 5 true None))) }
    ensures limited { command_of (codes "plan" ∷ codes "--bushy" ∷ codes "s" ∷ codes "q" ∷ codes "--memory=9" ∷ codes "--stats" ∷ codes "f" ∷ [])
        ≡ Some (over_query None (codes "s") (codes "q") (query_tasks.PlanFromStats (codes "f") (terms_by 1000000 true (Some 9)))) }
    ensures past_most { command_of (codes "plan" ∷ codes "s" ∷ codes "q" ∷ codes "--stats=f" ∷ codes "--budget=4000001" ∷ codes "--bushy" ∷ []) ≡ None }
    ensures of_orders { command_of (codes "plan" ∷ codes "s" ∷ codes "q" ∷ codes "--stats=f" ∷ codes "--budget=4000001" ∷ [])
        ≡ Some (over_query None (codes "s") (codes "q") (query_tasks.PlanFromStats (codes "f") (terms_by 4000001 false None))) }

    // `--stats` can't be combined with another source of bounds or an accuracy. The command `stats` has only the option `--accuracy`.
    ensures accuracy { command_of (codes "plan" ∷ codes "s" ∷ codes "q" ∷ codes "--stats=f" ∷ codes "--accuracy=1" ∷ []) ≡ None }
    ensures reduced { command_of (codes "plan" ∷ codes "s" ∷ codes "q" ∷ codes "--stats=f" ∷ codes "--reduce" ∷ []) ≡ None }
    ensures of_run { command_of (codes "run" ∷ codes "s" ∷ codes "q" ∷ codes "--stats=f" ∷ []) ≡ None }
    ensures budget { command_of (codes "stats" ∷ codes "s" ∷ codes "q" ∷ codes "--budget=5" ∷ []) ≡ None }
    ensures flag { command_of (codes "stats" ∷ codes "s" ∷ codes "q" ∷ codes "--reduce" ∷ []) ≡ None }
    ensures a_third { command_of (codes "stats" ∷ codes "s" ∷ codes "q" ∷ codes "f" ∷ []) ≡ None }
{}

/// Command lines with `--memory`. The function does nothing; its contract has the examples.
pub fn small_limits()
    ensures run { command_of (codes "run" ∷ codes "s" ∷ codes "q" ∷ codes "--memory" ∷ codes "556" ∷ [])
        ≡ Some (over_query None (codes "s") (codes "q") (plan_by out_text.Rows 1000000 1 false false false (Some 556))) }
    ensures joined { command_of (codes "plan" ∷ codes "--memory=0556" ∷ codes "s" ∷ codes "q" ∷ codes "--bushy" ∷ [])
        ≡ Some (over_query None (codes "s") (codes "q") (plan_by out_text.Nothing 1000000 1 false true false (Some 556))) }
    ensures least { command_of (codes "audit" ∷ codes "s" ∷ codes "q" ∷ codes "--memory" ∷ codes "1" ∷ codes "--reduce" ∷ [])
        ≡ Some (over_query None (codes "s") (codes "q") (plan_by out_text.Audit 1000000 1 true false false (Some 1))) }
    ensures most { command_of (codes "run" ∷ codes "s" ∷ codes "q" ∷ codes "--memory" ∷ codes "1099511627776" ∷ [])
        ≡ Some (over_query None (codes "s") (codes "q") (plan_by out_text.Rows 1000000 1 false false false (Some 1099511627776))) }
    ensures past_most { command_of (codes "run" ∷ codes "s" ∷ codes "q" ∷ codes "--memory" ∷ codes "1099511627777" ∷ []) ≡ None }
    ensures no_byte { command_of (codes "run" ∷ codes "s" ∷ codes "q" ∷ codes "--memory" ∷ codes "0" ∷ []) ≡ None }
    ensures twice { command_of (codes "run" ∷ codes "--memory=5" ∷ codes "s" ∷ codes "q" ∷ codes "--memory=5" ∷ []) ≡ None }
    ensures no_number { command_of (codes "run" ∷ codes "s" ∷ codes "q" ∷ codes "--memory=5k" ∷ []) ≡ None }
    ensures of_a_file { command_of (codes "plan" ∷ codes "s" ∷ codes "q" ∷ codes "--stats=f" ∷ codes "--memory=5" ∷ [])
        ≡ Some (over_query None (codes "s") (codes "q") (query_tasks.PlanFromStats (codes "f") (terms_by 1000000 false (Some 5)))) }
    ensures of_stats { command_of (codes "stats" ∷ codes "s" ∷ codes "q" ∷ codes "--memory=5" ∷ []) ≡ None }
    ensures of_demo { command_of (codes "demo" ∷ codes "7" ∷ codes "--memory=5" ∷ []) ≡ None }
{}

/// Command lines with the command `append`. The function does nothing; its contract has the examples.
pub fn small_appends()
    ensures append { command_of (codes "append" ∷ codes "s" ∷ codes "f" ∷ codes "T" ∷ codes "n" ∷ [])
        ≡ Some (append_command (codes "s") (record { stats_file = (codes "f"); table = (codes "T"); rows_file = (codes "n") })) }
    ensures empty { command_of (codes "append" ∷ codes "s" ∷ codes "-" ∷ [] ∷ codes "n" ∷ []) ≡ Some (append_command (codes "s") (record { stats_file = (codes "-"); table = []; rows_file = (codes "n") })) }
    ensures behind { command_of (codes "append" ∷ codes "s" ∷ codes "--" ∷ codes "-f" ∷ codes "--" ∷ codes "n" ∷ [])
        ≡ Some (append_command (codes "s") (record { stats_file = (codes "-f"); table = (codes "--"); rows_file = (codes "n") })) }

    // `append` takes four positional words, and nothing else.
    ensures of_three { command_of (codes "append" ∷ codes "s" ∷ codes "f" ∷ codes "T" ∷ []) ≡ None }
    ensures a_fifth { command_of (codes "append" ∷ codes "s" ∷ codes "f" ∷ codes "T" ∷ codes "n" ∷ codes "m" ∷ []) ≡ None }
    ensures accuracy { command_of (codes "append" ∷ codes "s" ∷ codes "f" ∷ codes "T" ∷ codes "n" ∷ codes "--accuracy=1" ∷ []) ≡ None }
    ensures file { command_of (codes "append" ∷ codes "s" ∷ codes "T" ∷ codes "n" ∷ codes "--stats=f" ∷ []) ≡ None }
    ensures flag { command_of (codes "append" ∷ codes "s" ∷ codes "f" ∷ codes "T" ∷ codes "n" ∷ codes "--reduce" ∷ []) ≡ None }
    ensures of_run { command_of (codes "run" ∷ codes "s" ∷ codes "q" ∷ codes "T" ∷ codes "n" ∷ []) ≡ None }
{}
