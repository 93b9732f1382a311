//! A word of a command line.
ghost use Rattle.std.specs.Prelude.{◌≡◌};

use std::marker::Model;

/// A word of a command line. In contracts it is its bytes.
#[derive(Debug, Drop)]
pub struct Word<'a> {
    text: &'a str,
}

impl<'a> Model for Word<'a> {
    ghost use Rattle.safebound_words.specs.Words.{Word as Bytes};

    ghost Value = { Bytes };

    ghost view = { λ word. word.text.now };
}

impl<'a> Word<'a> {
    /// Makes a word of a text.
    pub fn new(text: &'a str) -> Word<'a>
        ensures { result ≡ text.now }
    {
        Word { text }
    }

    /// The text of the word.
    pub fn get(&self) -> &'a str
        ensures { result.now ≡ self.now }
    {
        self.text
    }
}
