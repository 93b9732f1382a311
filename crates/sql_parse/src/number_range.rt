//! Finds numbers outside the signed 64-bit range (SQL-92 5.3).
ghost use Rattle.std.specs.Prelude.{◌≡◌, ◌-◌, All};
ghost use Rattle.sql_tokens.specs.Words.{IsLexemeOf};
ghost use Rattle.query_names.specs.Answers.{first};
ghost use Rattle.query_names.specs.Numbers.{is_out_of_range, sign_before, number_offence, number_offences};

use ll_grammars::{Lexeme, Terminal, is_among};
use query_names::is_negative;
use sql_tokens::number;

const NUMBERS: &[Terminal] = &[Terminal::Zero, Terminal::Number];

const SIGNS: &[Terminal] = &[Terminal::Plus, Terminal::Minus];

fn is_out_of_range(negative: bool, value: u64) -> bool
    ensures { result ≡ is_out_of_range negative value }
{
    if negative {
        value > 1 << 63
    } else {
        value >= 1 << 63
    }
}

/// The token `before`, if it is a sign.
fn sign_before(before: Option<Lexeme>) -> Option<Lexeme>
    ensures { result ≡ sign_before before }
{
    let token = before?;
    if is_among(token.terminal, SIGNS) {
        Some(token)
    } else {
        None
    }
}

/// The byte offset of a token, if it is a number outside the range. A number with a sign begins at its sign.
#[tactic(auto, using(crate::proofs::NumberRange::still_too_large))]
fn number_offence(text: &[u8], sign: Option<Lexeme>, token: Lexeme) -> Option<u32>
    requires { IsLexemeOf text.now token }
    ensures { result ≡ first (number_offence text.now sign token) }
{
    if is_among(token.terminal, NUMBERS)
        && is_out_of_range(is_negative(&sign), number(text, &token))
    {
        Some(sign.unwrap_or(token).start)
    } else {
        None
    }
}

/// The byte offset of the first number outside the range. A number with a sign begins at its sign.
#[tactic(auto, using(crate::proofs::NumberRange::none_here, crate::proofs::NumberRange::offence_here, crate::proofs::NumberRange::none_at_end), unfolding(query_names::specs::Numbers::number_offences))]
pub fn check_numbers(text: &[u8], tokens: &[Lexeme]) -> Option<u32>
    requires { All (IsLexemeOf text.now) tokens.now }
    ensures { result ≡ first (number_offences text.now tokens.now) }
{
    let mut before = None;
    'all: for token in tokens {
        let wrong = number_offence(text, sign_before(before), *token);
        if wrong.is_some() {
            return wrong;
        }
        before = Some(*token);
    }
    None
}
