// The longest match of pattern mode's and of jump mode's rules at a place of a source: its first byte says which leaves can match there.
ghost use Rattle.std.specs.Prelude.{◌≡◌, drop};
ghost use Rattle.tokens.specs.declared.Mode.TheVariants.{HexPattern, HexJump};
ghost use Rattle.tokens.specs.Tokens.{tables_1};
ghost use Rattle.tokens.specs.Scan.{best, rules};
ghost use Rattle.places.specs.Signs.{matched};
ghost use Rattle.rules.specs.Families.{comment_rules};

use crate::hits;
use crate::hits::one;
use crate::spacing::{is_spacing, spacing};
use tokens::Hit;

// The longest match of pattern mode at a place.
pub(crate) fn pattern(src: &[u8], at: usize) -> Option<Hit>
    ensures { result ≡ matched (best (rules tables_1 HexPattern) (drop at src.now)) }
{
    match places::byte_at(src, at) {
        b if is_spacing(b) => spacing(src, at),
        b if classes::is_hex_or_mark(b) | (b == b'~') => {
            one(tokens::HEX_BYTE, at, operators::hex_byte(src, at))
        }
        b'/' => commented(src, at),
        _ => operators::pattern_operator(src, at),
    }
}

// A comment of pattern mode.
fn commented(src: &[u8], at: usize) -> Option<Hit>
    ensures { result ≡ matched (best comment_rules (drop at src.now)) }
{
    let end = comments::block_comment_of_chars(src, at);
    let block = one(tokens::COMMENT, at, end);
    let line = one(tokens::COMMENT, at, comments::line_comment(src, at));
    hits::longer(block, line)
}

// The longest match of jump mode at a place.
pub(crate) fn jump(src: &[u8], at: usize) -> Option<Hit>
    ensures { result ≡ matched (best (rules tables_1 HexJump) (drop at src.now)) }
{
    match places::byte_at(src, at) {
        b if is_spacing(b) => spacing(src, at),
        b if classes::is_dec(b) => one(tokens::INTEGER_LIT, at, numbers::jump_integer(src, at)),
        _ => operators::jump_operator(src, at),
    }
}
