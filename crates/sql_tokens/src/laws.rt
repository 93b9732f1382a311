//! Laws of texts and their tokens. These functions do nothing.
ghost use Rattle.std.specs.Prelude.{◌≡◌, ℕ, ◌≤◌, List, ◌++◌, length, All, ◌⊎◌, false};
ghost use Rattle.sql_tokens.specs.declared.token.Token.{Token};
ghost use Rattle.sql_tokens.specs.declared.token.TokenKind.{TokenKind};
ghost use Rattle.sql_tokens.specs.Tokens.{IsToken, goes_on};
ghost use Rattle.sql_tokens.specs.Lexing.{IsLexed, IsBad, HasItsForm, TokensAreInOrder};

/// A text has at most one list of tokens.
pub fn one_reading()
    ensures { (text : List ℕ) (tokens others : List Token) → IsLexed text tokens → IsLexed text others → tokens ≡ others }
{}

/// A text has an error at one byte at most.
pub fn one_offence()
    ensures { (text : List ℕ) (at other : ℕ) → IsBad text at → IsBad text other → at ≡ other }
{}

/// A text that has tokens has no error.
pub fn no_error_with_tokens()
    ensures { (text : List ℕ) (tokens : List Token) (at : ℕ) → IsLexed text tokens → IsBad text at → ⊥ }
{}

/// Each text has tokens or an error.
pub fn tokens_or_error_of_text()
    ensures { (text : List ℕ) → ((tokens : List Token) × IsLexed text tokens) ⊎ ((at : ℕ) × IsBad text at) }
{}

/// The bytes of a token in its text have the form of the token's kind.
pub fn tokens_have_forms()
    ensures { (text : List ℕ) (tokens : List Token) → IsLexed text tokens → All (HasItsForm text) tokens }
{}

/// The spans of a text's tokens follow one another within the text, and no span is empty.
pub fn tokens_are_in_order()
    ensures { (text : List ℕ) (tokens : List Token) → IsLexed text tokens → TokensAreInOrder 0 (length text) tokens }
{}

/// A token that can't go on with the bytes after it is the longest prefix of the text with the form of a token.
pub fn tokens_are_longest()
    ensures { (kind other : TokenKind) (token rest longer more : List ℕ) → IsToken kind token → goes_on kind token rest ≡ false
        → token ++ rest ≡ longer ++ more → IsToken other longer → length longer ≤ length token }
{}
