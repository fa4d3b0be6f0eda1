// Numbers in decimal that stand in a text, each behind a space.
ghost use Rattle.std.specs.Prelude.{fold, length, ◌≤◌, ◌≡◌};
ghost use Rattle.std.specs.List.{prefix_len};
ghost use Rattle.tokens.specs.Tokens.{dec};
ghost use Rattle.lines.specs.Decimals.{grown, spelled, starts, behind};

use crate::behind;
use classes::is_dec;
use places::byte_at;

// A number, and the place after its last digit.
#[derive(Clone, Copy, Debug, PartialEq, Eq)]
pub struct Number {
    pub value: usize,
    pub end: usize,
}

// The number behind a space at the place, if there is one.
pub fn number_behind(text: &[u8], at: usize) -> Option<Number>
    ensures { result ≡ behind text.now at }
{
    if starts_number(text, at) {
        return Some(number_at(text, at + 1));
    }
    None
}

// Whether a space and a digit stand at the place.
fn starts_number(text: &[u8], at: usize) -> bool
    ensures { result ≡ starts text.now at }
{
    byte_at(text, at) == b' ' && is_dec(byte_at(text, at + 1))
}

// The number whose digits stand at the place.
fn number_at(text: &[u8], from: usize) -> Number
    requires { from ≤ length text.now }
    ensures { result ≡ spelled text.now from }
{
    let rest = behind(text, from);
    let len = digits(rest);
    Number {
        value: value_of(&rest[..len]),
        end: from + len,
    }
}

// How many digits stand at the front.
fn digits(text: &[u8]) -> usize
    ensures { result ≡ prefix_len dec text.now }
{
    text.iter().take_while(|b| is_dec(**b)).count()
}

// The number that digits spell.
fn value_of(digits: &[u8]) -> usize
    ensures { result ≡ fold grown 0 digits.now }
{
    digits.iter().fold(0, |value, digit| grown(value, *digit))
}

// A number with one digit more; the greatest number stands for all above it.
fn grown(value: usize, digit: u8) -> usize
    ensures { result ≡ grown value digit }
{
    let last = usize::from(digit.saturating_sub(b'0'));
    value.saturating_mul(10).saturating_add(last)
}
