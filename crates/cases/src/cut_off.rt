// Characters that are cut off: INVALID_UTF8, byte by byte.
use crate::modes::one_byte;
use std::io;
use tokens::{INVALID_UTF8, Mode};

// Whether each byte of a source is one INVALID_UTF8.
fn is_broken(src: &[u8]) -> bool {
    (0..u32::MAX).zip(src).all(|(at, _)| {
        one_byte(src, at, Mode::Normal).is_some_and(|(kind, _)| kind == INVALID_UTF8)
    })
}

// Whether a character is read byte by byte, cut off after each of its bytes but the last.
fn is_broken_cut_off(c: char) -> bool {
    let mut room = [0; 4];
    let bytes = c.encode_utf8(&mut room).as_bytes();
    (1..bytes.len()).all(|n| bytes.get(..n).is_some_and(is_broken))
}

// How many of the characters from 64 * from up to, but without, 64 * to are.
fn broken_among(from: u32, to: u32) -> usize {
    (from..to)
        .filter_map(|k| char::from_u32(k.wrapping_mul(64)))
        .filter(|c| is_broken_cut_off(*c))
        .count()
}

// One character for each row of bytes that can stand before a last one: U+0080 to U+D7FF, and from U+E000 on, past the surrogates.
pub(crate) fn characters(rt: &impl Print) -> io::Result<()> {
    println!(rt;
        "cut off: {}, past the surrogates: {}",
        broken_among(2, 864),
        broken_among(896, 17408)
    )
}
