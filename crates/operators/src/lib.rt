// The operators of normal mode.
#![tactic(auto)]

ghost use Rattle.std.specs.Prelude.{◌≡◌, map, drop};
ghost use Rattle.tokens.specs.Tokens.{spelled, operators};
ghost use Rattle.tokens.specs.Scan.{best};
ghost use Rattle.places.specs.Signs.{matched};

mod signs;

pub use signs::{hex_byte, jump_operator, newline, pattern_operator};
use tokens::Hit;

// The operator at a place.
pub fn operator(src: &[u8], at: usize) -> Option<Hit>
    ensures { result ≡ matched (best (map spelled operators) (drop at src.now)) }
{
    let (kind, len) = match places::byte_at(src, at) {
        b'<' => match places::byte_at(src, at + 1) {
            b'<' => (41, 2),
            b'=' => (45, 2),
            _ => (47, 1),
        },
        b'>' => match places::byte_at(src, at + 1) {
            b'>' => (42, 2),
            b'=' => (46, 2),
            _ => (48, 1),
        },
        b'=' => match places::byte_at(src, at + 1) {
            b'=' => (43, 2),
            _ => (55, 1),
        },
        b'!' => match places::byte_at(src, at + 1) {
            b'=' => (44, 2),
            _ => return None,
        },
        b'&' => (49, 1),
        b'*' => (50, 1),
        b'\\' => (51, 1),
        b':' => (52, 1),
        b',' => (53, 1),
        b'.' => (54, 1),
        b'+' => (56, 1),
        b'-' => (57, 1),
        b'%' => (58, 1),
        b'|' => (59, 1),
        b'^' => (60, 1),
        b'~' => (61, 1),
        b'{' => (62, 1),
        b'}' => (63, 1),
        b'(' => (64, 1),
        b')' => (65, 1),
        b'[' => (66, 1),
        b']' => (67, 1),
        _ => return None,
    };
    Some(Hit { kind, len })
}
