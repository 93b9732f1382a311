//! The tokens that grammars read.
use crate::Terminal;

/// A token of a text, as a grammar reads it: its terminal symbol, and its bytes in the text, from `start` to `end`. Byte `end` isn't included.
#[derive(Clone, Copy, Debug)]
pub struct Lexeme {
    pub terminal: Terminal,
    pub start: u32,
    pub end: u32,
}
