// What is tried in each mode: forged readers, switches, an over-long source, and every source of one byte.
use crate::{lengths, say};
use reader::Reader;
use std::io;
use tokens::{Mode, Offset};

// No byte; then places within a source, at its end, past it, and as far past it as can be said.
const PLACES: [(&[u8], u32); 5] = [
    (b"", 0),
    (b"ab", 1),
    (b"ab", 2),
    (b"ab", 3),
    (b"ab", u32::MAX),
];

// A reader that no call handed out.
pub(crate) fn reader_at(place: u32, mode: Mode) -> Reader {
    Reader {
        place: Offset(place),
        mode,
    }
}

// How a reader at the place goes through the source.
fn scanned(rt: &impl Print, src: &[u8], place: u32, mode: Mode) -> io::Result<()> {
    print!(rt; "`")?;
    rt.write_all(src)?;
    print!(rt; "` from {place}: ")?;
    say::source(rt, src, reader_at(place, mode))
}

// The marked case that is run.
pub(crate) fn marked(rt: &impl Print) -> io::Result<()> {
    scanned(rt, b";rule", 0, Mode::Normal)
}

// A reader that was opened on another source, on one that is over-long.
fn over_long(rt: &impl Print, mode: Mode) -> io::Result<()> {
    print!(rt; "65536 bytes: ")?;
    say::source(rt, &lengths::OVER_LONG, reader_at(0, mode))
}

// Both switches: the place stays.
fn switches(rt: &impl Print, mode: Mode) -> io::Result<()> {
    let reader = reader_at(3, mode);
    print!(rt; "to pattern: ")?;
    say::position(rt, reader.enter_hex_pattern_mode())?;
    print!(rt; "; to jump: ")?;
    say::position(rt, reader.enter_hex_jump_mode())?;
    println!(rt)
}

// The byte at a place of a source, read by itself: its kind and the mode reached, where it is a token of its own.
pub(crate) fn one_byte(src: &[u8], at: u32, mode: Mode) -> Option<(u32, Mode)> {
    let (token, next) = reader_at(at, mode).scan(src).ok()??;
    let alone = token.start == Offset(at)
        && u64::from(token.end.0) == u64::from(at) + 1
        && next.place == token.end;
    alone.then_some((token.kind, next.mode))
}

// The kind of the token that a byte alone is, and a letter for the mode reached; a dash where the token is not that byte.
fn byte_alone(rt: &impl Print, b: u8, mode: Mode) -> io::Result<()> {
    match one_byte(&[b], 0, mode) {
        Some((kind, reached)) => print!(rt; "{kind}{}", say::letter(reached)),
        None => print!(rt; "-"),
    }
}

// Every byte alone, sixteen to a line.
fn every_byte(rt: &impl Print, mode: Mode) -> io::Result<()> {
    for b in 0..=u8::MAX {
        byte_alone(rt, b, mode)?;
        if b % 16 == 15 {
            println!(rt)?;
        } else {
            print!(rt; " ")?;
        }
    }
    Ok(())
}

// All that is tried in a mode.
pub(crate) fn in_mode(rt: &impl Print, mode: Mode) -> io::Result<()> {
    println!(rt; "{} mode", say::name(mode))?;
    for (src, place) in PLACES {
        scanned(rt, src, place, mode)?;
    }
    over_long(rt, mode)?;
    switches(rt, mode)?;
    every_byte(rt, mode)
}
