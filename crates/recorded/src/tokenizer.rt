// Records of the Rust's tokenizer, held to the scanner through a token source. The numbers of one are that of the mode and, for each
// token, its kind and its end. It stops at the first INVALID_UTF8 or UNKNOWN, of which it has the kind and the start.
use reader::Reader;
use tokens::{INVALID_UTF8, Mode, Offset, Token};

// Whether the tokenizer stops at a token.
fn is_last(token: Token) -> bool {
    token.kind >= INVALID_UTF8
}

// Whether a token that was found by the reader is the recorded one.
fn is_recorded(token: Token, reader: Reader, kind: u32, place: u32) -> bool {
    let ended = if is_last(token) {
        token.start
    } else {
        token.end
    };
    token.start == reader.place && token.kind == kind && ended == Offset(place)
}

// Whether the source answers the reader with the recorded tokens, and then with none.
fn is_same(recorded: &[u32], src: &[u8], opened: Reader) -> bool {
    let mut reader = opened;
    let mut left = recorded;
    while let [kind, place, others @ ..] = left {
        let Ok(Some((token, next))) = source::next_at(src, reader.place, reader.mode) else {
            return false;
        };
        if !is_recorded(token, reader, *kind, *place) {
            return false;
        }
        if is_last(token) {
            return others.is_empty();
        }
        reader = next;
        left = others;
    }
    left.is_empty() && source::next_at(src, reader.place, reader.mode) == Ok(None)
}

// The reader with the switch to the mode.
fn in_mode(reader: Reader, mode: Mode) -> Reader {
    match mode {
        Mode::Normal => reader,
        Mode::HexPattern => reader.enter_hex_pattern_mode(),
        Mode::HexJump => reader.enter_hex_jump_mode(),
    }
}

// Whether the numbers are a record, and the scanner answers on the source what it has.
pub(crate) fn is_right(src: &[u8], recorded: &[u32]) -> bool {
    let Some((number, tokens)) = recorded.split_first() else {
        return false;
    };
    let (Ok(mode), Ok(reader)) = (Mode::try_from(*number), Reader::open(src)) else {
        return false;
    };
    is_same(tokens, src, in_mode(reader, mode))
}
