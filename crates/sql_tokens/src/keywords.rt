//! Keywords and their terminals: words that can't be names, or can't be names everywhere (SQL-92 5.2).
ghost use Rattle.std.specs.Prelude.{◌≡◌, map};
ghost use Rattle.std.specs.Str.{bytes_eq};
ghost use Rattle.sql_tokens.specs.Words.{word_and_terminal, in_upper_case, keywords, terminal_in};

use ll_grammars::Terminal;

// Each keyword in upper case, with its terminal.
const KEYWORDS: &[(&str, Terminal)] = &[
    ("AND", Terminal::And),
    ("AS", Terminal::As),
    ("BETWEEN", Terminal::Between),
    ("BIGINT", Terminal::Bigint),
    ("CHAR", Terminal::Char),
    ("CHARACTER", Terminal::Character),
    ("CONSTRAINT", Terminal::Constraint),
    ("CREATE", Terminal::Create),
    ("DEFAULT", Terminal::Default),
    ("DELETE", Terminal::Delete),
    ("FOREIGN", Terminal::Foreign),
    ("FROM", Terminal::From),
    ("IN", Terminal::In),
    ("INNER", Terminal::Inner),
    ("INT", Terminal::Int),
    ("INTEGER", Terminal::Integer),
    ("JOIN", Terminal::Join),
    ("NOT", Terminal::Not),
    ("NULL", Terminal::Null),
    ("ON", Terminal::On),
    ("OR", Terminal::Or),
    ("PRIMARY", Terminal::Primary),
    ("REFERENCES", Terminal::References),
    ("SELECT", Terminal::Select),
    ("SET", Terminal::Set),
    ("SMALLINT", Terminal::Smallint),
    ("TABLE", Terminal::Table),
    ("UNIQUE", Terminal::Unique),
    ("UPDATE", Terminal::Update),
    ("VARCHAR", Terminal::Varchar),
    ("VARYING", Terminal::Varying),
    ("WHERE", Terminal::Where),
    ("KEY", Terminal::Key),
    ("NO", Terminal::No),
    ("ACTION", Terminal::Action),
    ("CASCADE", Terminal::Cascade),
    ("ALL", Terminal::Reserved),
    ("ANY", Terminal::Reserved),
    ("ASC", Terminal::Reserved),
    ("BY", Terminal::Reserved),
    ("CASE", Terminal::Reserved),
    ("CAST", Terminal::Reserved),
    ("CHECK", Terminal::Reserved),
    ("CROSS", Terminal::Reserved),
    ("DESC", Terminal::Reserved),
    ("DISTINCT", Terminal::Reserved),
    ("EXCEPT", Terminal::Reserved),
    ("EXISTS", Terminal::Reserved),
    ("FULL", Terminal::Reserved),
    ("GROUP", Terminal::Reserved),
    ("HAVING", Terminal::Reserved),
    ("INTERSECT", Terminal::Reserved),
    ("IS", Terminal::Reserved),
    ("LEFT", Terminal::Reserved),
    ("LIKE", Terminal::Reserved),
    ("NATURAL", Terminal::Reserved),
    ("ORDER", Terminal::Reserved),
    ("OUTER", Terminal::Reserved),
    ("RIGHT", Terminal::Reserved),
    ("UNION", Terminal::Reserved),
    ("USING", Terminal::Reserved),
    ("VALUES", Terminal::Reserved),
];

/// Whether the bytes spell the word, with letters in either case. `word` is in upper case.
#[tactic(auto, using(crate::proofs::Spelling::other_length, crate::proofs::Spelling::one_letter_more, crate::proofs::Spelling::another_letter, crate::proofs::Spelling::no_letter_left))]
fn is_spelled(word: &[u8], bytes: &[u8]) -> bool
    ensures { result ≡ bytes_eq word.now (in_upper_case bytes.now) }
{
    if word.len() != bytes.len() {
        return false;
    }
    'all: for i in 0..word.len() {
        if word[i] != bytes[i].to_ascii_uppercase() {
            return false;
        }
    }
    true
}

fn find(keywords: &[(&str, Terminal)], bytes: &[u8]) -> Terminal
    ensures { result ≡ terminal_in (map word_and_terminal keywords.now) (in_upper_case bytes.now) }
{
    'all: for (word, terminal) in keywords {
        if is_spelled(word.as_bytes(), bytes) {
            return *terminal;
        }
    }
    Terminal::Name
}

/// The terminal of a word.
pub fn word_terminal(bytes: &[u8]) -> Terminal
    ensures { result ≡ terminal_in keywords (in_upper_case bytes.now) }
{
    find(KEYWORDS, bytes)
}
