//! Why a list of tokens has no value.

/// Why a list of tokens has no value. `At` is the byte of the syntax error: the start of the first token that can't follow the tokens before it in
/// any text of the language. If the tokens end too early, `At` is the text's length. `NoMemory`: memory ran out.
#[derive(Clone, Copy, Debug, PartialEq, Eq)]
pub enum SyntaxError {
    At(u32),
    NoMemory,
}
