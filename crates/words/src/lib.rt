// Words: how far letters, digits and underscores go on.
#![tactic(auto)]

mod keywords;

ghost use Rattle.std.specs.Prelude.{◌+◌, ◌≡◌, drop};
ghost use Rattle.patterns.specs.Pattern.{longest};
ghost use Rattle.tokens.specs.Unicode.{in_runs, digits_16};
ghost use Rattle.tokens.specs.Tokens.{tail, word_part};

pub use keywords::keyword;
use utf8::{Chars, run_end_of};

// The end of the word tail at `at`: any run of ASCII letters, `_` and decimal digits.
pub fn word_tail(src: &[u8], at: usize) -> usize
    ensures { result ≡ at + longest (tail digits_16) (drop at src.now) }
{
    run_end_of::<WordChars>(src, at)
}

// The characters of a word.
struct WordChars;

impl Chars for WordChars {
    ghost class = { word_part digits_16 };

    fn has(v: u32) -> bool {
        is_part(v)
    }
}

// Whether `v` may stand in a word: in ASCII a letter, a digit or `_`, beyond it a decimal digit.
fn is_part(v: u32) -> bool
    ensures { result ≡ word_part digits_16 v }
{
    if v < 0x80 {
        let b = v as u8;
        return b.is_ascii_alphanumeric() | (b == b'_');
    }
    is_digit(v)
}

// The first of each run of ten decimal digits: General_Category Nd, Unicode 16.0.
const DIGITS_16: [u32; 76] = [
    0x30, 0x660, 0x6F0, 0x7C0, 0x966, 0x9E6, 0xA66, 0xAE6, 0xB66, 0xBE6, 0xC66, 0xCE6, 0xD66,
    0xDE6, 0xE50, 0xED0, 0xF20, 0x1040, 0x1090, 0x17E0, 0x1810, 0x1946, 0x19D0, 0x1A80, 0x1A90,
    0x1B50, 0x1BB0, 0x1C40, 0x1C50, 0xA620, 0xA8D0, 0xA900, 0xA9D0, 0xA9F0, 0xAA50, 0xABF0, 0xFF10,
    0x104A0, 0x10D30, 0x10D40, 0x11066, 0x110F0, 0x11136, 0x111D0, 0x112F0, 0x11450, 0x114D0,
    0x11650, 0x116C0, 0x116D0, 0x116DA, 0x11730, 0x118E0, 0x11950, 0x11BF0, 0x11C50, 0x11D50,
    0x11DA0, 0x11F50, 0x16130, 0x16A60, 0x16AC0, 0x16B50, 0x16D70, 0x1CCF0, 0x1D7CE, 0x1D7D8,
    0x1D7E2, 0x1D7EC, 0x1D7F6, 0x1E140, 0x1E2F0, 0x1E4F0, 0x1E5F1, 0x1E950, 0x1FBF0,
];

// Whether `v` is a decimal digit: it is among the ten of the last run that begins at or before it.
fn is_digit(v: u32) -> bool
    ensures { result ≡ in_runs digits_16 v }
{
    let runs = DIGITS_16.partition_point(|first| *first <= v);
    runs != 0 && v - DIGITS_16[runs - 1] < 10
}
