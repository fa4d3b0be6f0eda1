// Comments: where the one at a place ends. Where there is none that is the place itself: the clauses' longest match has no byte there.
#![tactic(auto)]

ghost use Rattle.std.specs.Prelude.{◌+◌, ◌≡◌, drop};
ghost use Rattle.patterns.specs.Pattern.{byte, char, longest};
ghost use Rattle.patterns.specs.Utf8.{decode};
ghost use Rattle.tokens.specs.Tokens.{block_comment, line_comment};
ghost use Rattle.comments.specs.Comments.{unit};

use patterns::Char;

// The end of the line comment at `at`, or `at` where there is none.
pub fn line_comment(src: &[u8], at: usize) -> usize
    ensures { result ≡ at + longest line_comment (drop at src.now) }
{
    if !places::has(src, at, b"//") {
        return at;
    }
    let rest = &src[at + 2..];
    at + 2 + rest.iter().position(|b| *b == b'\n').unwrap_or(rest.len())
}

// The end of the block comment at `at`, or `at` where there is none. With `chars` it holds well-formed characters only, and else any bytes.
// `chars` is an argument: one loop serves both, `unit` of specs/ is by it, and a const parameter would stand in proofs under names of
// Rattle's own. The loop counts by hand, since a step is one to four bytes long.
fn block(src: &[u8], at: usize, chars: bool) -> usize
    ensures { result ≡ at + longest (block_comment (unit chars)) (drop at src.now) }
{
    if !places::has(src, at, b"/*") {
        return at;
    }
    let mut i = at + 2;
    let mut star = false;
    while i < src.len() {
        let b = src[i];
        if chars && 0x80 <= b {
            match decode_at(src, i) {
                Some(c) => {
                    i += c.len;
                    star = false;
                }
                None => {
                    return at;
                }
            }
        } else {
            i += 1;
            if star && b == b'/' {
                return i;
            }
            star = b == b'*';
        }
    }
    at
}

// What stands at a place beyond ASCII. Comments are ASCII for the most part: as cold code out of line it leaves the loop above tight.
#[cold]
#[inline(never)]
fn decode_at(src: &[u8], at: usize) -> Option<Char>
    ensures { result ≡ decode (drop at src.now) }
{
    utf8::decode_at(src, at)
}

// The end of the block comment at `at`, or `at` where there is none.
pub fn block_comment(src: &[u8], at: usize) -> usize
    ensures { result ≡ at + longest (block_comment byte) (drop at src.now) }
{
    block(src, at, false)
}

// The end of the block comment of well-formed characters at `at`, or `at` where there is none.
pub fn block_comment_of_chars(src: &[u8], at: usize) -> usize
    ensures { result ≡ at + longest (block_comment char) (drop at src.now) }
{
    block(src, at, true)
}
