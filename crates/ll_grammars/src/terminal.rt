//! The terminal symbols of the grammars.
ghost use Rattle.std.specs.Prelude.{◌≡◌};
ghost use Rattle.ll_grammars.specs.Terminals.{among, code};

/// A terminal symbol of the grammars of schema and query texts. A reserved word of SQL that no rule reads is `Reserved`. The number 0 is `Zero`, a
/// terminal of its own, since it can't be a length.
#[derive(Clone, Copy, Debug)]
pub enum Terminal {
    Name,
    Key,
    No,
    Action,
    Cascade,
    And,
    As,
    Between,
    Bigint,
    Char,
    Character,
    Constraint,
    Create,
    Default,
    Delete,
    Foreign,
    From,
    In,
    Inner,
    Int,
    Integer,
    Join,
    Not,
    Null,
    On,
    Or,
    Primary,
    References,
    Select,
    Set,
    Smallint,
    Table,
    Unique,
    Update,
    Varchar,
    Varying,
    Where,
    Reserved,
    Zero,
    Number,
    Text,
    Equal,
    NotEqual,
    Less,
    LessOrEqual,
    Greater,
    GreaterOrEqual,
    Open,
    Close,
    Comma,
    Dot,
    Semicolon,
    Star,
    Plus,
    Minus,
}

/// The terminals that a name may have. KEY, NO, ACTION and CASCADE are keywords only where the grammar expects them; elsewhere they are names.
pub const NAME: &[Terminal] = &[
    Terminal::Name,
    Terminal::Key,
    Terminal::No,
    Terminal::Action,
    Terminal::Cascade,
];

impl Terminal {
    /// The terminal's number; different terminals have different numbers.
    pub fn code(self) -> u8
        ensures { result ≡ code self }
    {
        match self {
            Terminal::Name => 0,
            Terminal::Key => 1,
            Terminal::No => 2,
            Terminal::Action => 3,
            Terminal::Cascade => 4,
            Terminal::And => 5,
            Terminal::As => 6,
            Terminal::Between => 7,
            Terminal::Bigint => 8,
            Terminal::Char => 9,
            Terminal::Character => 10,
            Terminal::Constraint => 11,
            Terminal::Create => 12,
            Terminal::Default => 13,
            Terminal::Delete => 14,
            Terminal::Foreign => 15,
            Terminal::From => 16,
            Terminal::In => 17,
            Terminal::Inner => 18,
            Terminal::Int => 19,
            Terminal::Integer => 20,
            Terminal::Join => 21,
            Terminal::Not => 22,
            Terminal::Null => 23,
            Terminal::On => 24,
            Terminal::Or => 25,
            Terminal::Primary => 26,
            Terminal::References => 27,
            Terminal::Select => 28,
            Terminal::Set => 29,
            Terminal::Smallint => 30,
            Terminal::Table => 31,
            Terminal::Unique => 32,
            Terminal::Update => 33,
            Terminal::Varchar => 34,
            Terminal::Varying => 35,
            Terminal::Where => 36,
            Terminal::Reserved => 37,
            Terminal::Zero => 38,
            Terminal::Number => 39,
            Terminal::Text => 40,
            Terminal::Equal => 41,
            Terminal::NotEqual => 42,
            Terminal::Less => 43,
            Terminal::LessOrEqual => 44,
            Terminal::Greater => 45,
            Terminal::GreaterOrEqual => 46,
            Terminal::Open => 47,
            Terminal::Close => 48,
            Terminal::Comma => 49,
            Terminal::Dot => 50,
            Terminal::Semicolon => 51,
            Terminal::Star => 52,
            Terminal::Plus => 53,
            Terminal::Minus => 54,
        }
    }
}

/// Whether the terminal is one of these.
pub fn is_among(terminal: Terminal, terminals: &[Terminal]) -> bool
    ensures { result ≡ among terminals.now terminal }
{
    'all: for other in terminals {
        if other.code() == terminal.code() {
            return true;
        }
    }
    false
}
