// What the programs of the gate read from a text of lines: the lines, where a byte comes next, and what a line asks for by a letter and
// numbers.
#![tactic(auto)]

ghost use Rattle.std.specs.Prelude.{drop, min, ◌≡◌, ◌==◌};
ghost use Rattle.std.specs.List.{position};
ghost use Rattle.lines.specs.Decimals.{value_or_zero};
ghost use Rattle.lines.specs.Decimals as decimal;
ghost use Rattle.lines.specs.Lines.{next_byte, asked};

mod decimals;
mod hex_pairs;
mod spaced;
mod split;

pub use decimals::{Number, number_behind};
pub use hex_pairs::{Decoded, decode};
use places::byte_at;
pub use spaced::Spaced;
pub use split::Lines;

// What a line asks for: its first letter, 0 where it is empty; and the numbers behind the first three spaces, 0 where there are none.
#[derive(Clone, Copy, Debug, PartialEq, Eq)]
pub struct Asked {
    pub letter: u8,
    pub first: usize,
    pub second: usize,
    pub third: usize,
}

// What of the text stands from a place on: nothing where the place is past the text.
pub(crate) fn behind(text: &[u8], at: usize) -> &[u8]
    ensures { result.now ≡ drop at text.now }
{
    text.get(at..).unwrap_or(&[])
}

// Where the text has the byte, at the place or behind it; the text's end where it has none; the place itself where that is past the text.
pub fn next_byte(text: &[u8], from: usize, byte: u8) -> usize
    ensures { result ≡ next_byte text.now from byte }
{
    let rest = behind(text, from);
    from + place_of(rest, byte).unwrap_or(rest.len())
}

// The first place of the byte, if there is one.
fn place_of(text: &[u8], byte: u8) -> Option<usize>
    ensures { result ≡ position (λ x. x == byte) text.now }
{
    text.iter().position(|b| *b == byte)
}

// The number behind a space at the place; 0 where there is none.
fn value_behind(line: &[u8], at: usize) -> usize
    ensures { result ≡ value_or_zero (decimal.behind line.now at) }
{
    number_behind(line, at).map_or(0, |n| n.value)
}

// What a line asks for.
pub fn ask(line: &[u8]) -> Asked
    ensures { result ≡ asked line.now }
{
    let first = next_byte(line, 0, b' ');
    let second = next_byte(line, first + 1, b' ');
    let third = next_byte(line, second + 1, b' ');
    Asked {
        letter: byte_at(line, 0),
        first: value_behind(line, first),
        second: value_behind(line, second),
        third: value_behind(line, third),
    }
}

// A number as one of 32 bits; the greatest of these where it is above them.
pub fn narrow(n: usize) -> u32
    ensures { result ≡ min n 4294967295 }
{
    u32::try_from(n).unwrap_or(u32::MAX)
}
