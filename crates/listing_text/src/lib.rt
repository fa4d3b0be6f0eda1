// The listing of a source, as document 01 shows it, written into a lent buffer. What its text is stands in specs/Listing.
#![tactic(auto)]

ghost use Rattle.std.specs.Prelude.{◌+◌, ◌≤◌, ◌≡◌, length};
ghost use Rattle.reader.specs.Following.{rest};
ghost use Rattle.listing_text.specs.Listing.{decimal, field, line, lines, head, text};
ghost use Rattle.listing_text.specs.Put.{Wrote};
ghost use Rattle.listing_text.specs.Listed.{outcome, listed};

mod form;
mod size;

use crate::form::{field_len, head_len};
use reader::Tokens;
use refusals::Refusal;
use tokens::Token;

// Writes the listing of a source at the front of `out`, and answers how many bytes it has. The bytes behind it stay as they were; on a
// refusal all of them do.
pub fn list(src: &[u8], out: &mut [u8]) -> Result<usize, Refusal>
    ensures { outcome result out.new ≡ listed src.now out.old }
{
    let tokens = size::open_fitting(src, out.len())?;
    Ok(put_text(out, tokens))
}

// The whole text, at the front of `out`. The first line has 8 bytes and the digits of a number: the lines are put as if that had one,
// and moved up by the others.
#[tactic(auto, using(crate::proofs::Numbers::length_text, crate::proofs::Numbers::head_least))]
fn put_text(out: &mut [u8], tokens: Tokens<'_>) -> usize
    requires { length (text (rest tokens.src.now tokens.reader)) ≤ length out.old }
    ensures { Wrote 0 (text (rest tokens.entry.src.now tokens.entry.reader)) out.old out.new result }
{
    let lines = put_lines(&mut out[9..], tokens);
    let at = head_len(lines.count);
    out.copy_within(9..9 + lines.len, at);
    put_head(&mut out[..at], lines.count);
    at + lines.len
}

// How many lines were put, and how many bytes they have.
#[derive(Clone, Copy)]
struct Lines {
    count: u32,
    len: usize,
}

// The lines of tokens, at the front of `out`. They are counted by hand as they are put: `count` would scan the source once more.
fn put_lines(out: &mut [u8], tokens: Tokens<'_>) -> Lines
    requires { length (lines (rest tokens.src.now tokens.reader)) ≤ length out.old }
    ensures count { result.count ≡ length (rest tokens.entry.src.now tokens.entry.reader) }
    ensures wrote { Wrote 0 (lines (rest tokens.entry.src.now tokens.entry.reader)) out.old out.new result.len }
{
    let mut count = 0;
    let mut len = 0;
    for token in tokens {
        count += 1;
        len += put_line(&mut out[len..], token);
    }
    Lines { count, len }
}

// A token's line, at the front of `out`. Each number is put before the next one is measured: less has to be kept at a time.
#[tactic(auto, using(crate::proofs::Numbers::length_line))]
fn put_line(out: &mut [u8], token: Token) -> usize
    requires { length (line token) ≤ length out.old }
    ensures { Wrote 0 (line token) out.old out.new result }
{
    let (kind, span) = out.split_at_mut(field_len(token.kind));
    put_field(kind, token.kind, b' ');
    let (start, behind) = span.split_at_mut(field_len(token.start.0));
    put_field(start, token.start.0, b' ');
    let (end, _) = behind.split_at_mut(field_len(token.end.0));
    put_field(end, token.end.0, b'\n');
    kind.len() + start.len() + end.len()
}

// Each function from here on is lent just the bytes of a text, and writes that.

// The first line: `tokens` and how many.
#[tactic(auto, using(crate::proofs::Numbers::length_head), unfolding(crate::specs::Listing::head))]
fn put_head(out: &mut [u8], n: u32)
    requires { length out.old ≡ length (head n) }
    ensures { out.new ≡ head n }
{
    let (word, count) = out.split_at_mut(7);
    word.copy_from_slice(b"tokens ");
    put_field(count, n, b'\n');
}

// A number, and the byte behind it.
#[tactic(auto, using(crate::proofs::Put::set_only), unfolding(crate::specs::Listing::field))]
fn put_field(out: &mut [u8], n: u32, b: u8)
    requires { length out.old ≡ length (decimal n) + 1 }
    ensures { out.new ≡ field n b }
{
    let (number, behind) = out.split_at_mut(out.len() - 1);
    put_number(number, n);
    behind[0] = b;
}

// The digits of a number, from the last one to the first; by index, since of what is written by `iter_mut` a proof knows the length alone.
// Put where it is called: three calls for each line, and what is kept over them, take a tenth of the time of a listing of short tokens. The
// remainder is taken by hand: with `left % 10` the loop is of more instructions.
#[inline(always)]
#[tactic(auto, using(crate::proofs::Numbers::one_below, crate::proofs::Numbers::decimal_some))]
fn put_number(out: &mut [u8], n: u32)
    requires { length out.old ≡ length (decimal n) }
    ensures { out.new ≡ decimal n }
{
    let mut left = n;
    for i in (1..out.len()).rev() {
        let tenth = left / 10;
        out[i] = b'0' + (left - 10 * tenth) as u8;
        left = tenth;
    }

    // the first digit is what is left: no division for it
    out[0] = b'0' + left as u8;
}
