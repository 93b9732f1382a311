//! The sets of terminals that the parser looks for.
pub use ll_grammars::NAME;
use ll_grammars::Terminal;

pub const NUMBER_TYPE: &[Terminal] = &[
    Terminal::Int,
    Terminal::Integer,
    Terminal::Smallint,
    Terminal::Bigint,
];

pub const CHARACTER: &[Terminal] = &[Terminal::Char, Terminal::Character];

pub const DELETE_OR_UPDATE: &[Terminal] = &[Terminal::Delete, Terminal::Update];

pub const NULL_OR_DEFAULT: &[Terminal] = &[Terminal::Null, Terminal::Default];

/// The terminals with which a column's constraint begins.
pub const COLUMN_RULE: &[Terminal] = &[
    Terminal::Constraint,
    Terminal::Not,
    Terminal::Primary,
    Terminal::Unique,
    Terminal::References,
];

pub const ACTION: &[Terminal] = &[Terminal::Action];

pub const CASCADE: &[Terminal] = &[Terminal::Cascade];

pub const CLOSE: &[Terminal] = &[Terminal::Close];

pub const COMMA: &[Terminal] = &[Terminal::Comma];

pub const CONSTRAINT: &[Terminal] = &[Terminal::Constraint];

pub const CREATE: &[Terminal] = &[Terminal::Create];

pub const FOREIGN: &[Terminal] = &[Terminal::Foreign];

pub const KEY: &[Terminal] = &[Terminal::Key];

pub const NO: &[Terminal] = &[Terminal::No];

pub const NOT: &[Terminal] = &[Terminal::Not];

pub const NULL: &[Terminal] = &[Terminal::Null];

pub const NUMBER: &[Terminal] = &[Terminal::Number];

pub const ON: &[Terminal] = &[Terminal::On];

pub const OPEN: &[Terminal] = &[Terminal::Open];

pub const PRIMARY: &[Terminal] = &[Terminal::Primary];

pub const REFERENCES: &[Terminal] = &[Terminal::References];

pub const SEMICOLON: &[Terminal] = &[Terminal::Semicolon];

pub const SET: &[Terminal] = &[Terminal::Set];

pub const TABLE: &[Terminal] = &[Terminal::Table];

pub const UNIQUE: &[Terminal] = &[Terminal::Unique];

pub const VARCHAR: &[Terminal] = &[Terminal::Varchar];

pub const VARYING: &[Terminal] = &[Terminal::Varying];
