// A call of the stream that a line asks for: made, its answer said, and the stream after it taken over.
use crate::bench::Bench;
use crate::forge::span;
use crate::say::Say;
use event_record::Position;
use events::{Given, Stream};
use lines::Asked;
use std::io;

// The calls.
#[derive(Clone, Copy)]
pub(crate) enum Call {
    Token,
    Error,
    Begin,
    End,
    EndWithError,
    Bookmark,
    Truncate,
    Remove,
    Pop,
}

impl Call {
    // The call that a word names: by its first letter and, where two words share that, by its length.
    pub(crate) fn named(letter: u8, width: usize) -> Call {
        match (letter, width) {
            (b't', 5) => Call::Token,
            (b't', _) => Call::Truncate,
            (b'b', 5) => Call::Begin,
            (b'b', _) => Call::Bookmark,
            (b'e', 3) => Call::End,
            (b'e', 5) => Call::Error,
            (b'e', _) => Call::EndWithError,
            (b'r', _) => Call::Remove,
            _ => Call::Pop,
        }
    }
}

// Says what a call answered, and where the stream that a refused one gave back is not the one handed in; gives the stream after it.
fn said<T: Say>(rt: &impl Print, before: Stream, given: Given<T>) -> io::Result<Stream> {
    match given.answer {
        Ok(value) => value.say(rt)?,
        Err(refusal) => {
            print!(rt; "refused {refusal}")?;
            if given.after != before {
                print!(rt; ", stream changed")?;
            }
        }
    }
    Ok(given.after)
}

impl Bench {
    // Makes a call. A number that does not fit is the greatest that does; of a kind or message the low 16 bits count.
    pub(crate) fn make(&mut self, rt: &impl Print, call: Call, asked: Asked) -> io::Result<()> {
        let stream = self.stream;
        let room = &mut self.room;
        let opens = &mut self.opens;
        let number = lines::narrow(asked.first);
        let kind = (number % 65536) as u16;
        let mark = Position(number as usize);
        let span = span(asked.second, asked.third);
        self.stream = match call {
            Call::Token => said(rt, stream, stream.push_token(room, opens, kind, span)),
            Call::Error => said(rt, stream, stream.push_error(room, opens, kind, span)),
            Call::Begin => said(rt, stream, stream.begin(room, opens, kind)),
            Call::End => said(rt, stream, stream.end(room, opens)),
            Call::EndWithError => said(rt, stream, stream.end_with_error(room, opens)),
            Call::Bookmark => said(rt, stream, stream.bookmark(room, opens)),
            Call::Truncate => said(rt, stream, stream.truncate(room, opens, mark)),
            Call::Remove => said(rt, stream, stream.remove_bookmark(room, opens, mark)),
            Call::Pop => said(rt, stream, stream.pop(room, opens)),
        }?;
        Ok(())
    }
}
