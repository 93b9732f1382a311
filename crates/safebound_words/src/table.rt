//! The names of commands, options and flags, and the words that name them.
ghost use Rattle.std.specs.Prelude.{◌≡◌};
ghost use Rattle.safebound_words.specs.Answer.{command_named as named_command, flag_named as named_flag, option_named as named_option};
ghost use Rattle.safebound_words.specs.Table.{option_row};

use limits::{
    DEFAULT_ACCURACY, DEFAULT_BUDGET, LEAST_ACCURACY, LEAST_BUDGET, MOST_ACCURACY, MOST_BUDGET,
    MOST_MEMORY,
};

// The least limit of memory, in bytes.
const LEAST_MEMORY: u64 = 1;

/// The name of a command.
#[derive(Clone, Copy, Debug, PartialEq, Eq)]
pub enum CommandName {
    Run,
    Plan,
    Audit,
    Stats,
    Append,
    Demo,
}

/// The name of an option.
#[derive(Clone, Copy, Debug, PartialEq, Eq)]
pub enum OptionName {
    Budget,
    Accuracy,
    Memory,
    Stats,
}

/// The name of a flag: an option without a value.
#[derive(Clone, Copy, Debug, PartialEq, Eq)]
pub enum FlagName {
    Reduce,
    Bushy,
    Keys,
    Count,
}

/// The least and the greatest value of an option, and its value if it isn't given.
#[derive(Clone, Copy)]
pub(crate) struct Range {
    pub least: u64,
    pub most: u64,
    pub default_value: u64,
}

impl OptionName {
    /// The values of the option.
    pub(crate) fn range(self) -> Range
        ensures least { result.least ≡ (option_row self).least }
        ensures most { result.most ≡ (option_row self).most }
        ensures default_value { result.default_value ≡ (option_row self).default_value }
    {
        match self {
            OptionName::Budget => Range {
                least: LEAST_BUDGET,
                most: MOST_BUDGET,
                default_value: DEFAULT_BUDGET,
            },
            OptionName::Accuracy => Range {
                least: LEAST_ACCURACY as u64,
                most: MOST_ACCURACY as u64,
                default_value: DEFAULT_ACCURACY as u64,
            },
            OptionName::Memory => Range {
                least: LEAST_MEMORY,
                most: MOST_MEMORY,
                default_value: 0,
            },
            OptionName::Stats => Range {
                least: 0,
                most: 0,
                default_value: 0,
            },
        }
    }
}

// The command that a word names.
pub(crate) fn command_named(word: &str) -> Option<CommandName>
    ensures { result ≡ named_command word.now }
{
    if word == "run" {
        Some(CommandName::Run)
    } else if word == "plan" {
        Some(CommandName::Plan)
    } else if word == "audit" {
        Some(CommandName::Audit)
    } else if word == "stats" {
        Some(CommandName::Stats)
    } else if word == "append" {
        Some(CommandName::Append)
    } else if word == "demo" {
        Some(CommandName::Demo)
    } else {
        None
    }
}

// The option `--accuracy`, if a word names it.
fn accuracy_named(word: &str) -> Option<OptionName>
    ensures { result ≡ named_option CommandName.Stats word.now }
{
    if word == "--accuracy" {
        Some(OptionName::Accuracy)
    } else {
        None
    }
}

// The option of `run` or `audit` that a word names.
fn run_option_named(word: &str) -> Option<OptionName>
    ensures { result ≡ named_option CommandName.Run word.now }
{
    if word == "--budget" {
        Some(OptionName::Budget)
    } else if word == "--accuracy" {
        Some(OptionName::Accuracy)
    } else if word == "--memory" {
        Some(OptionName::Memory)
    } else {
        None
    }
}

// The option of `plan` that a word names.
fn plan_option_named(word: &str) -> Option<OptionName>
    ensures { result ≡ named_option CommandName.Plan word.now }
{
    if word == "--budget" {
        Some(OptionName::Budget)
    } else if word == "--accuracy" {
        Some(OptionName::Accuracy)
    } else if word == "--memory" {
        Some(OptionName::Memory)
    } else if word == "--stats" {
        Some(OptionName::Stats)
    } else {
        None
    }
}

// The flag that a word names.
fn any_flag_named(word: &str) -> Option<FlagName>
    ensures { result ≡ named_flag CommandName.Run word.now }
{
    if word == "--reduce" {
        Some(FlagName::Reduce)
    } else if word == "--bushy" {
        Some(FlagName::Bushy)
    } else if word == "--keys" {
        Some(FlagName::Keys)
    } else if word == "--count" {
        Some(FlagName::Count)
    } else {
        None
    }
}

// The option that a word names, if the command has this option.
pub(crate) fn option_named(name: CommandName, word: &str) -> Option<OptionName>
    ensures option { result ≡ named_option name word.now }
{
    match name {
        CommandName::Run | CommandName::Audit => run_option_named(word),
        CommandName::Plan => plan_option_named(word),
        CommandName::Stats => accuracy_named(word),
        CommandName::Append | CommandName::Demo => None,
    }
}

// The flag that a word names, if the command has this flag.
pub(crate) fn flag_named(name: CommandName, word: &str) -> Option<FlagName>
    ensures flag { result ≡ named_flag name word.now }
{
    if matches!(
        name,
        CommandName::Stats | CommandName::Append | CommandName::Demo
    ) {
        return None;
    }
    any_flag_named(word)
}
