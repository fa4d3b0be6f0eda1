// The longest match of normal mode's rules at a place of a source: its first byte says which leaves can match there.
ghost use Rattle.std.specs.Prelude.{◌≡◌, true, ◌<◌, length, get_or, drop};
ghost use Rattle.tokens.specs.declared.Mode.TheVariants.{Normal};
ghost use Rattle.tokens.specs.Tokens.{tables_1, word_start};
ghost use Rattle.tokens.specs.Scan.{best, rules};
ghost use Rattle.places.specs.Signs.{matched};
ghost use Rattle.rules.specs.Families.{word_rules, number_rules, quote_rules, slash_rules};
ghost use Rattle.rules.specs.Marks.{Marked};

use crate::hits::{longer, one};
use crate::spacing;
use tokens::Hit;

// The longest match of normal mode at a place.
pub(crate) fn normal(src: &[u8], at: usize) -> Option<Hit>
    ensures { result ≡ matched (best (rules tables_1 Normal) (drop at src.now)) }
{
    match places::byte_at(src, at) {
        b if spacing::is_spacing(b) => spacing::spacing(src, at),
        b if classes::is_word_start(b) => word(src, at),
        b if classes::is_dec(b) => number(src, at),
        b'"' => quoted(src, at),
        b'/' => slashed(src, at),
        b'$' => Some(marked(tokens::PATTERN_IDENT, src, at)),
        b'#' => Some(marked(tokens::PATTERN_COUNT, src, at)),
        b'@' => Some(marked(tokens::PATTERN_OFFSET, src, at)),
        b'!' => longer(
            operators::operator(src, at),
            Some(marked(tokens::PATTERN_LENGTH, src, at)),
        ),
        _ => operators::operator(src, at),
    }
}

// A keyword or an identifier.
fn word(src: &[u8], at: usize) -> Option<Hit>
    requires { (at < length src.now) × (word_start (get_or src.now at 0) ≡ true) }
    ensures { result ≡ matched (best word_rules (drop at src.now)) }
{
    let end = words::word_tail(src, at + 1);
    Some(Hit {
        kind: words::keyword(&src[at..end]),
        len: end - at,
    })
}

// A float or an integer.
fn number(src: &[u8], at: usize) -> Option<Hit>
    ensures { result ≡ matched (best number_rules (drop at src.now)) }
{
    let ends = numbers::number(src, at);
    let float = one(tokens::FLOAT_LIT, at, ends.float);
    let integer = one(tokens::INTEGER_LIT, at, ends.integer);
    longer(float, integer)
}

// A string, on one line or between three quotes.
fn quoted(src: &[u8], at: usize) -> Option<Hit>
    ensures { result ≡ matched (best quote_rules (drop at src.now)) }
{
    let short = one(tokens::STRING_LIT, at, texts::string(src, at));
    let long = one(tokens::STRING_LIT, at, texts::multi_line_string(src, at));
    longer(short, long)
}

// A regexp or a comment.
fn slashed(src: &[u8], at: usize) -> Option<Hit>
    ensures { result ≡ matched (best slash_rules (drop at src.now)) }
{
    let regexp = one(tokens::REGEXP, at, texts::regexp(src, at));
    let block = one(tokens::COMMENT, at, comments::block_comment(src, at));
    let line = one(tokens::COMMENT, at, comments::line_comment(src, at));
    longer(regexp, longer(block, line))
}

// A mark, as `$`, and the word's tail behind it.
fn marked(kind: u32, src: &[u8], at: usize) -> Hit
    requires { at < length src.now }
    ensures { Marked kind src.now at result }
{
    Hit {
        kind,
        len: words::word_tail(src, at + 1) - at,
    }
}
