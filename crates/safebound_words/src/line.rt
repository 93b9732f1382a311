//! Reads the words after the command's name (`run`, `plan`, ..), from left to right.
ghost use Rattle.std.specs.Prelude.{◌≡◌, ◌+◌, ◌∷◌, ◌++◌, [], length, List, map, if◌then◌else◌, IfOk, None, false, true, OnErr, OnOk};
ghost use Rattle.safebound_words.specs.Collected.{asked_by, asked_from, collected, FitsNext, given_to, option_words, times_of, words_of};
ghost use Rattle.safebound_words.specs.CommandLines.{same_flag, same_option};
ghost use Rattle.safebound_words.specs.Words.{Word};

use crate::command::WordsError;
use crate::kind::{WordKind, kind_of_word};
use crate::table::{CommandName, FlagName, OptionName};

/// The positional words so far: arguments that are neither options nor flags, and no option's value. No command takes more than four.
#[derive(Clone, Copy)]
pub(crate) enum Positionals<'a> {
    Nothing,
    One(&'a str),
    Two(&'a str, &'a str),
    Three(&'a str, &'a str, &'a str),
    Four(&'a str, &'a str, &'a str, &'a str),
}

/// What the next word may be: an item (a positional word, a flag or an option), or the value of an option. After `--` it may only be positional.
#[derive(Clone, Copy)]
pub(crate) enum Next {
    Item,
    Value(OptionName),
    Positional,
}

/// The positional words so far, the value of each option that was given, and whether each flag was given.
#[derive(Clone, Copy)]
pub(crate) struct Line<'a> {
    pub positionals: Positionals<'a>,
    pub budget: Option<&'a str>,
    pub accuracy: Option<&'a str>,
    pub memory: Option<&'a str>,
    pub stats: Option<&'a str>,
    pub reduce: bool,
    pub bushy: bool,
    pub keys: bool,
    pub count: bool,
}

// Sets `given` to the word. If `given` is set already, the result is `Usage`.
fn set_word_once<'a>(given: &mut Option<&'a str>, word: &'a str) -> Result<(), WordsError>
    ensures ok { OnOk result (option_words given.new ≡ option_words given.old ++ word.now ∷ []) }
    ensures again { OnErr result (length (option_words given.old) ≡ 1) }
{
    if given.is_some() {
        return Err(WordsError::Usage);
    }
    *given = Some(word);
    Ok(())
}

// Sets `marked`. If it is set already, the result is `Usage`.
fn set_flag_once(marked: &mut bool) -> Result<(), WordsError>
    ensures ok { OnOk result ((marked.old ≡ false) × (marked.new ≡ true)) }
    ensures again { OnErr result (marked.old ≡ true) }
{
    if *marked {
        return Err(WordsError::Usage);
    }
    *marked = true;
    Ok(())
}

impl<'a> Line<'a> {
    // Adds a positional word, if there are fewer than four.
    fn add_positional(&mut self, word: &'a str) -> Result<(), WordsError>
        ensures ok { OnOk result (words_of self.new.positionals ≡ words_of self.old.positionals ++ word.now ∷ []) }
        ensures given { (option : OptionName) → given_to self.new option ≡ given_to self.old option }
        ensures times { (flag : FlagName) → times_of self.new flag ≡ times_of self.old flag }
        ensures full { OnErr result (length (words_of self.old.positionals) ≡ 4) }
    {
        self.positionals = match self.positionals {
            Positionals::Nothing => Positionals::One(word),
            Positionals::One(first) => Positionals::Two(first, word),
            Positionals::Two(first, second) => Positionals::Three(first, second, word),
            Positionals::Three(first, second, third) => Positionals::Four(
                first, second, third, word,
            ),
            Positionals::Four(_, _, _, _) => return Err(WordsError::Usage),
        };
        Ok(())
    }

    // Adds the value of an option, if the option has no value yet.
    fn add_value(&mut self, option: OptionName, word: &'a str) -> Result<(), WordsError>
        ensures ok { OnOk result ((other : OptionName) → given_to self.new other
            ≡ given_to self.old other ++ (if same_option other option then word.now ∷ [] else [])) }
        ensures positionals { self.new.positionals ≡ self.old.positionals }
        ensures times { (flag : FlagName) → times_of self.new flag ≡ times_of self.old flag }
        ensures again { OnErr result (length (given_to self.old option) ≡ 1) }
    {
        match option {
            OptionName::Budget => set_word_once(&mut self.budget, word),
            OptionName::Accuracy => set_word_once(&mut self.accuracy, word),
            OptionName::Memory => set_word_once(&mut self.memory, word),
            OptionName::Stats => set_word_once(&mut self.stats, word),
        }
    }

    // Adds a flag, if it wasn't given before.
    fn add_flag(&mut self, flag: FlagName) -> Result<(), WordsError>
        ensures ok { OnOk result ((other : FlagName) → times_of self.new other
            ≡ times_of self.old other + (if same_flag other flag then 1 else 0)) }
        ensures positionals { self.new.positionals ≡ self.old.positionals }
        ensures given { (option : OptionName) → given_to self.new option ≡ given_to self.old option }
        ensures again { OnErr result (times_of self.old flag ≡ 1) }
    {
        match flag {
            FlagName::Reduce => set_flag_once(&mut self.reduce),
            FlagName::Bushy => set_flag_once(&mut self.bushy),
            FlagName::Keys => set_flag_once(&mut self.keys),
            FlagName::Count => set_flag_once(&mut self.count),
        }
    }

    // Takes the next word, and returns what the word after it may be.
    fn take(&mut self, name: CommandName, next: Next, word: &'a str) -> Result<Next, WordsError>
        requires { FitsNext name next }
        ensures ok { IfOk result (λ after. (words : List Word) →
            asked_from name self.new after words ≡ asked_from name self.old next (word.now ∷ words)) }
        ensures fits { IfOk result (FitsNext name) }
        ensures err { OnErr result ((words : List Word) → asked_from name self.old next (word.now ∷ words) ≡ None) }
    {
        match next {
            Next::Positional => {
                self.add_positional(word)?;
                Ok(Next::Positional)
            }
            Next::Value(option) => {
                self.add_value(option, word)?;
                Ok(Next::Item)
            }
            Next::Item => self.take_item(name, word),
        }
    }

    // Takes the next word before `--`, when no option waits for its value.
    fn take_item(&mut self, name: CommandName, word: &'a str) -> Result<Next, WordsError>
        ensures ok { IfOk result (λ after. (words : List Word) →
            asked_from name self.new after words ≡ asked_from name self.old Next.Item (word.now ∷ words)) }
        ensures fits { IfOk result (FitsNext name) }
        ensures err { OnErr result ((words : List Word) → asked_from name self.old Next.Item (word.now ∷ words) ≡ None) }
    {
        match kind_of_word(name, word) {
            WordKind::End => Ok(Next::Positional),
            WordKind::Positional => {
                self.add_positional(word)?;
                Ok(Next::Item)
            }
            WordKind::Flag(flag) => {
                self.add_flag(flag)?;
                Ok(Next::Item)
            }
            WordKind::Option(option) => Ok(Next::Value(option)),
            WordKind::Value(option, value) => {
                self.add_value(option, value)?;
                Ok(Next::Item)
            }
            WordKind::Unknown => Err(WordsError::Usage),
        }
    }
}

/// Reads the words after the command's name.
pub(crate) fn read_line<'a>(name: CommandName, words: &[&'a str]) -> Result<Line<'a>, WordsError>
    ensures ok { IfOk result (λ line. collected name line ≡ asked_by name (map (λ w. w.now) words.now)) }
    ensures err { OnErr result (asked_by name (map (λ w. w.now) words.now) ≡ None) }
{
    let mut line = Line {
        positionals: Positionals::Nothing,
        budget: None,
        accuracy: None,
        memory: None,
        stats: None,
        reduce: false,
        bushy: false,
        keys: false,
        count: false,
    };
    let mut next = Next::Item;
    'words: for word in words {
        next = line.take(name, next, word)?;
    }
    match next {
        Next::Value(_) => Err(WordsError::Usage),
        Next::Item | Next::Positional => Ok(line),
    }
}
