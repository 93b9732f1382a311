//! A reader of tokens from left to right.
ghost use Rattle.std.specs.Prelude.{◌≡◌};
ghost use Rattle.ll_grammars.specs.Reading.{starts, read_one};
ghost use Rattle.ll_grammars.specs.Rules.{IsReadAs, is_empty, next_token_start};

use crate::terminal::is_among;
use crate::{Lexeme, Stop, Terminal};
use std::alloc::Global;
use std::marker::Model;

/// Reads tokens from left to right. Contracts speak of a reader as the list of the remaining tokens.
#[derive(Drop)]
pub struct Reader<'a> {
    rest: &'a [Lexeme],
    alloc: Global,
}

impl<'a> Model for Reader<'a> {
    ghost use Rattle.std.specs.Prelude.{List};
    ghost use Rattle.ll_grammars.specs.declared.lexeme.Lexeme.{Lexeme};

    ghost Value = { List Lexeme };

    ghost view = { λ r. r.rest.now };
}

impl<'a> Reader<'a> {
    /// A reader before the first token.
    pub fn new(alloc: Global, tokens: &'a [Lexeme]) -> Reader<'a>
        ensures { result ≡ tokens.now }
    {
        Reader {
            rest: tokens,
            alloc,
        }
    }

    /// The allocator for the values that are read.
    pub fn allocator(&self) -> Global {
        self.alloc
    }

    /// Whether the next token is one of these terminals.
    pub fn starts(&self, terminals: &[Terminal]) -> bool
        ensures { result ≡ starts terminals.now self.now }
    {
        match self.rest.first() {
            Some(token) => is_among(token.terminal, terminals),
            None => false,
        }
    }

    /// Reads the next token if it is one of these terminals. Otherwise the result is `Stop::Syntax`, and nothing is read.
    pub fn one(&mut self, terminals: &[Terminal]) -> Result<Lexeme, Stop>
        ensures { IsReadAs result self.new (read_one terminals.now self.old) }
    {
        match self.rest.split_first() {
            Some((token, rest)) => {
                if is_among(token.terminal, terminals) {
                    self.rest = rest;
                    Ok(*token)
                } else {
                    Err(Stop::Syntax)
                }
            }
            None => Err(Stop::Syntax),
        }
    }

    /// Reads the next token if it is one of these terminals, and returns whether it is.
    pub fn reads_if_one_of(&mut self, terminals: &[Terminal]) -> bool
        ensures taken { result ≡ starts terminals.now self.old }
        ensures left { self.new ≡ (read_one terminals.now self.old).1 }
    {
        let Some((token, rest)) = self.rest.split_first() else {
            return false;
        };
        let is_taken = is_among(token.terminal, terminals);
        if is_taken {
            self.rest = rest;
        }
        is_taken
    }

    /// The byte at which the next token begins, or `end`, the text's end, if no token is left.
    pub fn next_token_start(&self, end: u32) -> u32
        ensures { result ≡ next_token_start self.now end }
    {
        match self.rest.first() {
            Some(token) => token.start,
            None => end,
        }
    }

    /// Whether no token is left.
    pub fn is_done(&self) -> bool
        ensures { result ≡ is_empty self.now }
    {
        self.rest.is_empty()
    }
}
