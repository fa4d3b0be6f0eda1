// Newlines, hex bytes, and the operators of the hex modes.
ghost use Rattle.std.specs.Prelude.{◌≡◌, ◌+◌, map, drop};
ghost use Rattle.patterns.specs.Pattern.{longest};
ghost use Rattle.tokens.specs.Tokens.{spelled, pattern_operators, jump_operators, newlines, hex_byte};
ghost use Rattle.tokens.specs.Scan.{best};
ghost use Rattle.places.specs.Signs.{matched};
ghost use Rattle.operators.specs.HexByte.{Nibbles};

use tokens::{Hit, NEWLINE};

// The operator of pattern mode at a place.
pub fn pattern_operator(src: &[u8], at: usize) -> Option<Hit>
    ensures { result ≡ matched (best (map spelled pattern_operators) (drop at src.now)) }
{
    let kind = match places::byte_at(src, at) {
        b'|' => 59,
        b'(' => 64,
        b')' => 65,
        b'[' => 66,
        b']' => 67,
        _ => return None,
    };
    Some(Hit { kind, len: 1 })
}

// The operator of jump mode at a place.
pub fn jump_operator(src: &[u8], at: usize) -> Option<Hit>
    ensures { result ≡ matched (best (map spelled jump_operators) (drop at src.now)) }
{
    match places::byte_at(src, at) {
        b'-' => Some(Hit { kind: 57, len: 1 }),
        _ => None,
    }
}

// The newline at a place.
pub fn newline(src: &[u8], at: usize) -> Option<Hit>
    ensures { result ≡ matched (best (map spelled newlines) (drop at src.now)) }
{
    let len = match places::byte_at(src, at) {
        b'\n' => 1,
        b'\r' => match places::byte_at(src, at + 1) {
            b'\n' => 2,
            _ => 1,
        },
        _ => return None,
    };
    Some(Hit { kind: NEWLINE, len })
}

// Whether two nibbles stand at a place, each a hex digit or a question mark.
fn nibbles_at(src: &[u8], at: usize) -> bool
    ensures { Nibbles src.now at result }
{
    classes::is_hex_or_mark(places::byte_at(src, at))
        && classes::is_hex_or_mark(places::byte_at(src, at + 1))
}

// The end of the hex byte at a place, or the place itself.
pub fn hex_byte(src: &[u8], at: usize) -> usize
    ensures { result ≡ at + longest hex_byte (drop at src.now) }
{
    if places::byte_at(src, at) == b'~' {
        if nibbles_at(src, at + 1) {
            return at + 3;
        }
        return at;
    }
    if nibbles_at(src, at) {
        return at + 2;
    }
    at
}
