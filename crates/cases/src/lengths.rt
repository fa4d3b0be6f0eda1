// Sources of the greatest length, and of one byte more.
use crate::modes::reader_at;
use crate::say;
use reader::Reader;
use std::io;
use tokens::Mode;

// Spaces, one more than a source can have.
pub(crate) const OVER_LONG: [u8; 65536] = [b' '; 65536];

// Classes of bytes, each with one of its bytes: the longest tokens of one class, and the most tokens.
const ROWS: [(&str, u8); 7] = [
    ("letters", b'a'),
    ("digits", b'7'),
    ("spaces", b' '),
    ("semicolons", b';'),
    ("less-than signs", b'<'),
    ("quotes", b'"'),
    ("bytes FF", 255),
];

// Texts, each with its first two and its last two bytes: the longest tokens that begin and end with other bytes.
const TEXTS: [(&str, [u8; 4]); 4] = [
    ("string", [b'"', b'x', b'x', b'"']),
    ("regexp", [b'/', b'x', b'x', b'/']),
    ("block comment", [b'/', b'*', b'*', b'/']),
    ("line comment", [b'/', b'/', b'x', b'x']),
];

// What opening answers.
fn opening(rt: &impl Print, src: &[u8]) -> io::Result<()> {
    print!(rt; "{} bytes: ", src.len())?;
    match Reader::open(src) {
        Ok(reader) => say::position(rt, reader)?,
        Err(refusal) => print!(rt; "refused {refusal}")?,
    }
    println!(rt)
}

// Both sides of the limit.
pub(crate) fn openings(rt: &impl Print) -> io::Result<()> {
    opening(rt, &OVER_LONG[..65535])?;
    opening(rt, &OVER_LONG)
}

// How a source with a name is read in normal mode.
fn report(rt: &impl Print, name: &str, src: &[u8]) -> io::Result<()> {
    print!(rt; "{name}: ")?;
    say::source(rt, src, reader_at(0, Mode::Normal))
}

// One byte over and over.
pub(crate) fn rows(rt: &impl Print) -> io::Result<()> {
    for (name, byte) in ROWS {
        report(rt, name, &[byte; 65535])?;
    }
    Ok(())
}

// A row of x, with other bytes at both ends.
pub(crate) fn texts(rt: &impl Print) -> io::Result<()> {
    for (name, [first, second, last_but_one, last]) in TEXTS {
        let mut src = [b'x'; 65535];
        src[0] = first;
        src[1] = second;
        src[65533] = last_but_one;
        src[65534] = last;
        report(rt, name, &src)?;
    }
    Ok(())
}
