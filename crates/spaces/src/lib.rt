// White space: runs of blanks, and text that goes on up to white space. A run of no character ends where it starts, as in the clauses.
#![tactic(auto)]

ghost use Rattle.std.specs.Prelude.{◌+◌, ◌≡◌, drop, not};
ghost use Rattle.patterns.specs.Pattern.{longest};
ghost use Rattle.tokens.specs.Unicode.{white};
ghost use Rattle.tokens.specs.Tokens.{blank, blanks};
ghost use Rattle.tokens.specs.Scan.{plain};

use utf8::{Chars, run_end_of};

// The end of the blank run at `at`, or `at` where there is none.
pub fn blanks(src: &[u8], at: usize) -> usize
    ensures { result ≡ at + longest blanks (drop at src.now) }
{
    run_end_of::<BlankChars>(src, at)
}

// The end of the well-formed text at `at` up to the first White_Space character.
pub fn plain_text(src: &[u8], at: usize) -> usize
    ensures { result ≡ at + longest plain (drop at src.now) }
{
    run_end_of::<PlainChars>(src, at)
}

// The characters of a blank run.
struct BlankChars;

impl Chars for BlankChars {
    ghost class = { blank };

    fn has(v: u32) -> bool {
        is_blank(v)
    }
}

// The characters that are no White_Space.
struct PlainChars;

impl Chars for PlainChars {
    ghost class = { λ v. not (white v) };

    fn has(v: u32) -> bool {
        !is_white(v)
    }
}

// Whether `v` may stand in a blank run. Not every White_Space character may: U+0085 and U+3000 are no blanks.
fn is_blank(v: u32) -> bool
    ensures { result ≡ blank v }
{
    (v == 0x20)
        | (v == 0x9)
        | (v == 0xA0)
        | ((0x2000 <= v) & (v <= 0x200A))
        | (v == 0x202F)
        | (v == 0x205F)
}

// Whether `v` is White_Space, as PropList.txt of the Unicode Standard lists it.
fn is_white(v: u32) -> bool
    ensures { result ≡ white v }
{
    ((0x9 <= v) & (v <= 0xD))
        | (v == 0x20)
        | (v == 0x85)
        | (v == 0xA0)
        | (v == 0x1680)
        | ((0x2000 <= v) & (v <= 0x200A))
        | (v == 0x2028)
        | (v == 0x2029)
        | (v == 0x202F)
        | (v == 0x205F)
        | (v == 0x3000)
}
