// Classes of bytes: each function is the class of that name of the definition.
#![tactic(auto)]

ghost use Rattle.std.specs.Prelude.{◌≡◌};
ghost use Rattle.tokens.specs.Tokens.{letter, dec, oct, hex, word_start, hex_or_mark};

// An ASCII letter.
pub fn is_letter(b: u8) -> bool
    ensures { result ≡ letter b }
{
    b.is_ascii_alphabetic()
}

// What a word starts with: an ASCII letter or an underscore.
pub fn is_word_start(b: u8) -> bool
    ensures { result ≡ word_start b }
{
    is_letter(b) || b == b'_'
}

// A decimal digit.
pub fn is_dec(b: u8) -> bool
    ensures { result ≡ dec b }
{
    b.is_ascii_digit()
}

// An octal digit.
pub fn is_oct(b: u8) -> bool
    ensures { result ≡ oct b }
{
    matches!(b, b'0'..=b'7')
}

// A hex digit.
pub fn is_hex(b: u8) -> bool
    ensures { result ≡ hex b }
{
    matches!(b, b'a'..=b'f' | b'A'..=b'F') || is_dec(b)
}

// A hex digit or a question mark.
pub fn is_hex_or_mark(b: u8) -> bool
    ensures { result ≡ hex_or_mark b }
{
    b == b'?' || is_hex(b)
}
