//! The sets of terminals that the parser looks for.
pub use ll_grammars::NAME;
use ll_grammars::Terminal;

// The terminals with which `[ AS ] name` begins. KEY, NO, ACTION and CASCADE are names in a query.
pub const ALIAS_FIRST: &[Terminal] = &[
    Terminal::As,
    Terminal::Name,
    Terminal::Key,
    Terminal::No,
    Terminal::Action,
    Terminal::Cascade,
];

pub const SIGN: &[Terminal] = &[Terminal::Plus, Terminal::Minus];

pub const DIGITS: &[Terminal] = &[Terminal::Number, Terminal::Zero];

pub const NUMBER: &[Terminal] = &[
    Terminal::Plus,
    Terminal::Minus,
    Terminal::Number,
    Terminal::Zero,
];

pub const OPERATOR: &[Terminal] = &[
    Terminal::Equal,
    Terminal::NotEqual,
    Terminal::Less,
    Terminal::LessOrEqual,
    Terminal::Greater,
    Terminal::GreaterOrEqual,
];

pub const JOIN_FIRST: &[Terminal] = &[Terminal::Inner, Terminal::Join];

pub const TEXT: &[Terminal] = &[Terminal::Text];

pub const EQUAL: &[Terminal] = &[Terminal::Equal];

pub const NOT_EQUAL: &[Terminal] = &[Terminal::NotEqual];

pub const LESS: &[Terminal] = &[Terminal::Less];

pub const LESS_OR_EQUAL: &[Terminal] = &[Terminal::LessOrEqual];

pub const GREATER: &[Terminal] = &[Terminal::Greater];

pub const GREATER_OR_EQUAL: &[Terminal] = &[Terminal::GreaterOrEqual];

pub const OPEN: &[Terminal] = &[Terminal::Open];

pub const CLOSE: &[Terminal] = &[Terminal::Close];

pub const COMMA: &[Terminal] = &[Terminal::Comma];

pub const DOT: &[Terminal] = &[Terminal::Dot];

pub const STAR: &[Terminal] = &[Terminal::Star];

pub const SEMICOLON: &[Terminal] = &[Terminal::Semicolon];

pub const SELECT: &[Terminal] = &[Terminal::Select];

pub const FROM: &[Terminal] = &[Terminal::From];

pub const WHERE: &[Terminal] = &[Terminal::Where];

pub const AS: &[Terminal] = &[Terminal::As];

pub const INNER: &[Terminal] = &[Terminal::Inner];

pub const JOIN: &[Terminal] = &[Terminal::Join];

pub const ON: &[Terminal] = &[Terminal::On];

pub const AND: &[Terminal] = &[Terminal::And];

pub const OR: &[Terminal] = &[Terminal::Or];

pub const NOT: &[Terminal] = &[Terminal::Not];

pub const BETWEEN: &[Terminal] = &[Terminal::Between];

pub const IN: &[Terminal] = &[Terminal::In];
