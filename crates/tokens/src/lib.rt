// The types that every layer above shares, and names for the kinds. What a token is stands in specs/.
#![tactic(auto)]

ghost use Rattle.std.specs.Prelude.{◌≡◌, ok_or};
ghost use Rattle.tokens.specs.Modes.{number_of, mode_of};

use std::error::Error;
use std::fmt;

// Document 01's kinds from 68 on. Keywords and operators go by their numbers. A kind stays a number and is no enum: a lent room may
// hold any number at a slot's kind, and `token_room::read` promises that very number.
pub const PATTERN_IDENT: u32 = 68;

pub const PATTERN_COUNT: u32 = 69;

pub const PATTERN_OFFSET: u32 = 70;

pub const PATTERN_LENGTH: u32 = 71;

pub const IDENT: u32 = 72;

pub const FLOAT_LIT: u32 = 73;

pub const INTEGER_LIT: u32 = 74;

pub const STRING_LIT: u32 = 75;

pub const REGEXP: u32 = 76;

pub const COMMENT: u32 = 77;

pub const WHITESPACE: u32 = 78;

pub const NEWLINE: u32 = 79;

pub const HEX_BYTE: u32 = 80;

pub const INVALID_UTF8: u32 = 81;

pub const UNKNOWN: u32 = 82;

// A place in a source, in bytes from its start.
#[derive(Clone, Copy, Debug, PartialEq, Eq, PartialOrd, Ord)]
pub struct Offset(pub u32);

// The number of a token, counted from the start of its source.
#[derive(Clone, Copy, Debug, PartialEq, Eq, PartialOrd, Ord)]
pub struct TokenIndex(pub u32);

// The scanner's three modes.
#[derive(Clone, Copy, Debug, PartialEq, Eq)]
pub enum Mode {
    Normal,
    HexPattern,
    HexJump,
}

// A number that is no mode's.
#[derive(Clone, Copy, Debug, PartialEq, Eq)]
pub struct NotAMode(pub u32);

impl fmt::Display for NotAMode {
    fn fmt<W: fmt::Write>(&self, f: &mut fmt::Formatter<W>) -> fmt::Result {
        write!(f, "{} is no mode's number", self.0)
    }
}

impl Error for NotAMode {}

impl From<Mode> for u32 {
    ghost from_gives = { λ mode n. n ≡ number_of mode };

    // The number of a mode: 0 normal, 1 pattern, 2 jump.
    fn from(mode: Mode) -> u32 {
        match mode {
            Mode::Normal => 0,
            Mode::HexPattern => 1,
            Mode::HexJump => 2,
        }
    }
}

impl TryFrom<u32> for Mode {
    type Error = NotAMode;

    ghost try_from_gives = { λ number answer. answer ≡ ok_or (mode_of number) (record { 0 = number }) };

    // The mode of a number.
    fn try_from(number: u32) -> Result<Mode, NotAMode> {
        match number {
            0 => Ok(Mode::Normal),
            1 => Ok(Mode::HexPattern),
            2 => Ok(Mode::HexJump),
            _ => Err(NotAMode(number)),
        }
    }
}

// A token: its kind by document 01's numbers, where it starts, and where it ends, the end excluded.
#[derive(Clone, Copy, Debug, PartialEq, Eq)]
pub struct Token {
    pub kind: u32,
    pub start: Offset,
    pub end: Offset,
}

// The longest match of some rules: a kind and a length. In the definition both are 0 where none matches; the code then has no hit.
#[derive(Clone, Copy, Debug, PartialEq, Eq)]
pub struct Hit {
    pub kind: u32,
    pub len: usize,
}

// What is taken at a place: a kind, a length, and the mode reached.
#[derive(Clone, Copy, Debug, PartialEq, Eq)]
pub struct Choice {
    pub kind: u32,
    pub len: usize,
    pub mode: Mode,
}
