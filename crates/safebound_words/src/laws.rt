//! Laws of the definitions. These functions do nothing.
ghost use Rattle.std.specs.Prelude.{◌≡◌, ◌↔◌, List, Some};
ghost use Rattle.safebound_words.specs.Answer.{command_of};
ghost use Rattle.safebound_words.specs.CommandLines.{AskFor, CommandReading, AreReadAs};
ghost use Rattle.safebound_words.specs.declared.command.Command.{Command};
ghost use Rattle.safebound_words.specs.Words.{Word};

/// A command line has at most one reading.
pub fn one_reading()
    ensures { (words : List Word) (one other : CommandReading) → AreReadAs words one → AreReadAs words other → one ≡ other }
{}

/// A command line asks for at most one command, and `command_of` computes it.
pub fn one_command()
    ensures one { (words : List Word) (one other : Command) → AskFor words one → AskFor words other → one ≡ other }
    ensures computed { (words : List Word) (command : Command) → AskFor words command ↔ (command_of words ≡ Some command) }
{}
