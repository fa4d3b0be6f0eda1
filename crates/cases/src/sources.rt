// A token source in the reader's stead: no byte, places within, at and past the end, an over-long source, an ill-formed byte.
use crate::{lengths, say};
use std::io;
use tokens::{Mode, Offset};

// Sources, each with a place that is asked at: of two bytes the start, the end, past it, and as far past it as can be said.
const ASKED: [(&[u8], u32); 7] = [
    (b"", 0),
    (b"ab", 0),
    (b"ab", 2),
    (b"ab", 3),
    (b"ab", u32::MAX),
    (&lengths::OVER_LONG, 0),
    (&[192], 0),
];

// What the source of these bytes answers at a place.
fn asked(rt: &impl Print, src: &[u8], place: u32, mode: Mode) -> io::Result<()> {
    print!(rt; "; ")?;
    match source::next_at(src, Offset(place), mode) {
        Ok(Some((token, reader))) => {
            say::token(rt, token)?;
            print!(rt; ", ")?;
            say::position(rt, reader)
        }
        Ok(None) => print!(rt; "none"),
        Err(refusal) => print!(rt; "refused {refusal}"),
    }
}

// All that is asked in a mode.
pub(crate) fn in_mode(rt: &impl Print, mode: Mode) -> io::Result<()> {
    print!(rt; "source, {} mode", say::name(mode))?;
    for (src, place) in ASKED {
        asked(rt, src, place, mode)?;
    }
    println!(rt)
}
