//! Reads the words of a command line into a command: the first stage of a run.
//!
//! `read_words` takes the words after the program's own name. It returns a `Command`, or `Usage` if the words ask for no command. It allocates no
//! memory. A command says which text is written to `out`, and from which source bounds are computed. It also says whether the plan is an order or a
//! tree.
//!
//! In contracts a word is its bytes. `AskFor` (in `specs/CommandLines.antt`) says which command words ask for, and `command_of` computes it.
//! `HasRanges` (in `specs/InRange.antt`) gives the ranges of a command's values. All commands, options and flags are in one table,
//! `specs/Table.antt`.
#![tactic(auto)]

mod cases;
mod command;
mod kind;
mod laws;
mod line;
mod number;
mod request;
mod table;
mod word;
mod words;

pub use cases::{
    small_appends, small_commands, small_flags, small_keys, small_limits, small_options,
    small_refusals, small_statistics, small_trees,
};
pub use command::{
    Command, ListSource, NewRows, OutText, PlanTerms, PlanWork, QueryTask, SchemaTask, Shape,
    WordsError,
};
pub use laws::{one_command, one_reading};
pub use table::{CommandName, FlagName, OptionName};
pub use word::Word;
pub use words::{MOST_WORDS, read_words};
