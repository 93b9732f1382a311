//! Reads the words of a command line.
ghost use Rattle.std.specs.Prelude.{◌≡◌, ◌≤◌, IfOk, OnOk, length, map, OnErr};
ghost use Rattle.std.specs.Result.{result_ok};
ghost use Rattle.safebound_words.specs.Answer.{command_of as command_of_words};
ghost use Rattle.safebound_words.specs.CommandLines.{AskFor};
ghost use Rattle.safebound_words.specs.InRange.{HasRanges};
ghost use Rattle.safebound_words.specs.declared.command.Command.{Command};

use crate::command::{Command, WordsError};
use crate::line::read_line;
use crate::request::command_of;
use crate::table::command_named;

/// The most words that a command line may have.
pub const MOST_WORDS: usize = 16;

// The command that the words ask for.
fn command_in<'a>(words: &[&'a str]) -> Option<Command<'a>>
    ensures { result ≡ command_of_words (map (λ w. w.now) words.now) }
{
    let (first, behind) = words.split_first()?;
    let name = command_named(first)?;
    match read_line(name, behind) {
        Ok(line) => command_of(name, &line),
        Err(_) => None,
    }
}

/// Reads the words of a command line, without the program's own name, in one walk from left to right. The call allocates no memory.
///
/// The result is `Usage` exactly if the words ask for no command. For example, they name no command, give an option twice, have flags that exclude
/// each other, or a value outside its range.
pub fn read_words<'a>(words: &[&'a str]) -> Result<Command<'a>, WordsError>
    ensures command { IfOk result (AskFor (map (λ w. w.now) words.now)) }
    ensures usage { OnErr result ((command : Command) → AskFor (map (λ w. w.now) words.now) command → ⊥) }

    // The result is what `command_of_words` computes from the words.
    ensures answer { result_ok result ≡ command_of_words (map (λ w. w.now) words.now) }
    ensures ranges { IfOk result (λ command. HasRanges command.schema_task) }
    ensures few { OnOk result (length words.now ≤ MOST_WORDS) }
{
    match command_in(words) {
        Some(command) => Ok(command),
        None => Err(WordsError::Usage),
    }
}
