// What the groups say on standard output.
use reader::Reader;
use std::io;
use tokens::{Mode, Token};

// How a reader went through a source: the number of tokens, the last of them, and the reader after it.
#[derive(Clone, Copy)]
struct Reading {
    tokens: usize,
    last: Option<Token>,
    reader: Reader,
}

// A mode by its name.
pub(crate) fn name(mode: Mode) -> &'static str {
    match mode {
        Mode::Normal => "normal",
        Mode::HexPattern => "pattern",
        Mode::HexJump => "jump",
    }
}

// A mode by the first letter of its name.
pub(crate) fn letter(mode: Mode) -> char {
    match mode {
        Mode::Normal => 'n',
        Mode::HexPattern => 'p',
        Mode::HexJump => 'j',
    }
}

// The mode of a reader, and where it stands.
pub(crate) fn position(rt: &impl Print, reader: Reader) -> io::Result<()> {
    print!(rt; "{} at {}", name(reader.mode), reader.place.0)
}

// A token as document 01 writes it.
pub(crate) fn token(rt: &impl Print, token: Token) -> io::Result<()> {
    print!(rt; "{} {}..{}", token.kind, token.start.0, token.end.0)
}

// What a reader answers that finds no token: none, where it stays as it is; or a refusal.
fn ending(rt: &impl Print, src: &[u8], reader: Reader) -> io::Result<()> {
    match reader.scan(src) {
        Ok(Some(_)) => print!(rt; "more tokens than bytes"),
        Ok(None) => {
            print!(rt; "none, ")?;
            position(rt, reader)
        }
        Err(refusal) => print!(rt; "refused {refusal}"),
    }
}

// Reads a source from a reader on, until no token is found or there are as many as bytes.
fn read_through(src: &[u8], opened: Reader) -> Reading {
    let mut read = Reading {
        tokens: 0,
        last: None,
        reader: opened,
    };
    for tokens in 1..=src.len() {
        let Ok(Some((token, reader))) = read.reader.scan(src) else {
            break;
        };
        read = Reading {
            tokens,
            last: Some(token),
            reader,
        };
    }
    read
}

// How a source is read: the number of tokens, the last of them, and the answer after it.
pub(crate) fn source(rt: &impl Print, src: &[u8], opened: Reader) -> io::Result<()> {
    let read = read_through(src, opened);
    print!(rt; "tokens {}", read.tokens)?;
    if let Some(last) = read.last {
        print!(rt; ", last ")?;
        token(rt, last)?;
    }
    print!(rt; ", ")?;
    ending(rt, src, read.reader)?;
    println!(rt)
}
