// UTF-8: which character stands at a place of a source.
#![tactic(auto)]

mod by_closure;

ghost use Rattle.std.specs.Prelude.{◌<◌, ◌≡◌, drop, Some};
ghost use Rattle.patterns.specs.Utf8.{Class, lead, longer, finish, decode};
ghost use Rattle.utf8.specs.Rest.{Bounded};
ghost use Rattle.utf8.specs.Runs.{run_end};

pub use by_closure::run_end;
use patterns::{Char, Lead};

// What stands at a place of a source: one well-formed character, or none.
pub fn decode_at(src: &[u8], at: usize) -> Option<Char>
    ensures { result ≡ decode (drop at src.now) }
{
    let b = *src.get(at)?;
    match lead_of(b) {
        Lead::Alone => Some(Char {
            value: u32::from(b),
            len: 1,
        }),
        Lead::More { low, high, k, bits } => {
            finish_at(src, at + 1, low, high, k, bits).map(longer)
        }
        Lead::Bad => None,
    }
}

// A class of characters, as a type: which characters are in it, and the test that says so. No value of such a type is needed.
pub trait Chars {
    // The class that the contracts speak of.
    ghost class: { Class };

    // Whether a character of the value `v` is in the class.
    fn has(v: u32) -> bool
        ensures { result ≡ class v };
}

// The end of the run of characters of a class at `at`, or `at` where there is none: the clause's run has no byte there. A character has
// one to four bytes, so no iterator steps by it.
pub fn run_end_of<C: Chars>(src: &[u8], at: usize) -> usize
    ensures { result ≡ run_end C.class src.now at }
{
    let mut end = at;
    while let Some(&b) = src.get(end) {
        // An ASCII character needs no decoding.
        if b < 0x80 {
            if !C::has(u32::from(b)) {
                return end;
            }
            end += 1;
            continue;
        }
        match decode_at(src, end) {
            Some(c) if C::has(c.value) => end += c.len,
            _ => return end,
        }
    }
    end
}

// What a first byte asks for: Table 3-7 of the Unicode Standard, row by row.
fn lead_of(b: u8) -> Lead
    ensures { result ≡ lead b }
{
    match b {
        0x00..=0x7F => Lead::Alone,
        0xC2..=0xDF => more(0x80, 0xBF, 0, b - 0xC0),
        0xE0 => more(0xA0, 0xBF, 1, b - 0xE0),
        0xE1..=0xEC => more(0x80, 0xBF, 1, b - 0xE0),
        0xED => more(0x80, 0x9F, 1, b - 0xE0),
        0xEE..=0xEF => more(0x80, 0xBF, 1, b - 0xE0),
        0xF0 => more(0x90, 0xBF, 2, b - 0xF0),
        0xF1..=0xF3 => more(0x80, 0xBF, 2, b - 0xF0),
        0xF4 => more(0x80, 0x8F, 2, b - 0xF0),
        _ => Lead::Bad,
    }
}

// A second byte in low..=high and then k bytes, after a first byte that holds the bits `bits`.
fn more(low: u8, high: u8, k: u32, bits: u8) -> Lead
    ensures { result ≡ Lead.More low high k bits }
{
    Lead::More {
        low,
        high,
        k,
        bits: u32::from(bits),
    }
}

// The rest of a character, of whose value `bits` is known: a byte in low..=high, and k more.
fn finish_at(src: &[u8], at: usize, low: u8, high: u8, k: u32, bits: u32) -> Option<Char>
    requires { Bounded low high k bits }
    ensures { result ≡ finish low high k bits (drop at src.now) }
{
    let b = *src.get(at)?;
    if b < low || high < b {
        return None;
    }
    let joined = bits * 64 + u32::from(b - 0x80);
    if k == 0 {
        return Some(Char {
            value: joined,
            len: 1,
        });
    }
    finish_at(src, at + 1, 0x80, 0xBF, k - 1, joined).map(longer)
}

// The same character with one byte more in front.
fn longer(c: Char) -> Char
    requires { c.len < 4 }
    ensures { Some result ≡ longer (Some c) }
{
    Char {
        len: c.len + 1,
        ..c
    }
}
