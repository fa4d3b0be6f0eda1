// Numbers: the integers and the floats of normal mode, and the integers of jump mode.
#![tactic(auto)]

ghost use Rattle.std.specs.Prelude.{◌≡◌, ◌+◌, ◌<◌, ◌≤◌, ℕ, drop, length, unwrap_or, IfSome};
ghost use Rattle.patterns.specs.Pattern.{walk, longest};
ghost use Rattle.patterns.specs.Walk.{span};
ghost use Rattle.tokens.specs.Tokens.{integer, float, jump_integer};
ghost use Rattle.numbers.specs.Parts.{digit, run, digits, base_at, suffix, fraction, decimal_integer};

use places::has_byte;

// Where the integer and the float end that start at one place; the place itself where there is none, as the longest match has no byte.
#[derive(Clone, Copy, Debug, PartialEq, Eq)]
pub struct Ends {
    pub integer: usize,
    pub float: usize,
}

// The bases of integers.
#[derive(Clone, Copy, Debug, PartialEq, Eq)]
enum Base {
    Octal,
    Decimal,
    Hex,
}

// The digits of a base, and whether underscores may stand behind the first: in normal mode they may, in jump mode not. The definition
// `digits` of specs/ has both parts.
#[derive(Clone, Copy, Debug, PartialEq, Eq)]
struct Digits {
    base: Base,
    underscores: bool,
}

// The digits of normal mode's decimal integers and floats.
const DECIMALS: Digits = Digits {
    base: Base::Decimal,
    underscores: true,
};

// Both are found in one pass. Where no digit follows `0x` or `0o`, the integer is the 0 alone.
pub fn number(src: &[u8], at: usize) -> Ends
    ensures { (result.integer ≡ at + longest integer (drop at src.now)) × (result.float ≡ at + longest float (drop at src.now)) }
{
    let base = base_at(src, at);
    let digits = Digits {
        base,
        underscores: true,
    };
    match base {
        Base::Decimal => decimal(src, at),
        Base::Octal | Base::Hex => Ends {
            integer: digits.end(src, at + 2).unwrap_or(at + 1),
            float: at,
        },
    }
}

// The end of the integer of jump mode at `at`, or `at` where there is none.
pub fn jump_integer(src: &[u8], at: usize) -> usize
    ensures { result ≡ at + longest jump_integer (drop at src.now) }
{
    let base = base_at(src, at);
    let digits = Digits {
        base,
        underscores: false,
    };
    match base {
        Base::Decimal => digits.end(src, at).unwrap_or(at),
        Base::Octal | Base::Hex => digits.end(src, at + 2).unwrap_or(at + 1),
    }
}

// The base that the bytes at `at` announce: 16 by `0x`, 8 by `0o`, otherwise 10.
fn base_at(src: &[u8], at: usize) -> Base
    ensures { result ≡ base_at src.now at }
{
    if has_byte(src, at, b'0') {
        let letter = at + 1;
        if has_byte(src, letter, b'x') {
            return Base::Hex;
        }
        if has_byte(src, letter, b'o') {
            return Base::Octal;
        }
    }
    Base::Decimal
}

// The ends of the decimal integer and the float at `at`: the same digits, and then a suffix or a fraction.
fn decimal(src: &[u8], at: usize) -> Ends
    ensures { (result.integer ≡ at + longest decimal_integer (drop at src.now)) × (result.float ≡ at + longest float (drop at src.now)) }
{
    match DECIMALS.end(src, at) {
        Some(end) => Ends {
            integer: suffix_end(src, end),
            float: fraction_end(src, end).unwrap_or(at),
        },
        None => Ends {
            integer: at,
            float: at,
        },
    }
}

// The end of the suffix `KB` or `MB` at `at`, or `at` where there is none.
fn suffix_end(src: &[u8], at: usize) -> usize
    ensures { result ≡ at + longest suffix (drop at src.now) }
{
    if has_byte(src, at, b'K') || has_byte(src, at, b'M') {
        let second = at + 1;
        if has_byte(src, second, b'B') {
            return second + 1;
        }
    }
    at
}

// The end of the fraction at `at`: a dot and at least one digit or underscore.
fn fraction_end(src: &[u8], at: usize) -> Option<usize>
    ensures { (none : ℕ) → unwrap_or result none ≡ walk fraction (drop at src.now) at none }
{
    if has_byte(src, at, b'.') {
        let first = at + 1;
        let end = DECIMALS.run_end(src, first);
        if first < end {
            return Some(end);
        }
    }
    None
}

impl Digits {
    // The end of the digits at `at`; none where no digit stands there.
    fn end(self, src: &[u8], at: usize) -> Option<usize>
        ensures value { (none : ℕ) → unwrap_or result none ≡ walk (digits self.base self.underscores) (drop at src.now) at none }
        ensures after { IfSome result (λ end. at < end) }
    {
        let first = *src.get(at)?;
        if self.base.has(first) {
            return Some(self.run_end(src, at + 1));
        }
        None
    }

    // The end of the run at `at` of digits and, where they are allowed, underscores.
    fn run_end(self, src: &[u8], at: usize) -> usize
        requires { at ≤ length src.now }
        ensures { result ≡ at + span (run self.base self.underscores) (drop at src.now) }
    {
        at + src[at..]
            .iter()
            .take_while(|b| self.go_on_with(**b))
            .count()
    }

    // Whether `b` is a digit or, where they are allowed, an underscore.
    fn go_on_with(self, b: u8) -> bool
        ensures { result ≡ run self.base self.underscores b }
    {
        self.base.has(b) || (self.underscores && b == b'_')
    }
}

impl Base {
    // Whether `b` is a digit of the base.
    fn has(self, b: u8) -> bool
        ensures { result ≡ digit self b }
    {
        match self {
            Base::Octal => classes::is_oct(b),
            Base::Decimal => classes::is_dec(b),
            Base::Hex => classes::is_hex(b),
        }
    }
}
