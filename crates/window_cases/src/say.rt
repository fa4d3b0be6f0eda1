// What is said on standard output.
use lines::Spaced;
use refusals::Refusal;
use std::io;
use tokens::{Token, TokenIndex};
use window::Window;

// What a call answers.
pub(crate) trait Say: Copy {
    fn say(self, rt: &impl Print) -> io::Result<()>;
}

impl Say for () {
    fn say(self, rt: &impl Print) -> io::Result<()> {
        print!(rt; "done")
    }
}

impl Say for bool {
    fn say(self, rt: &impl Print) -> io::Result<()> {
        print!(rt; "{self}")
    }
}

impl Say for TokenIndex {
    fn say(self, rt: &impl Print) -> io::Result<()> {
        print!(rt; "{}", self.0)
    }
}

impl Say for Option<Token> {
    // A token as document 01 writes it.
    fn say(self, rt: &impl Print) -> io::Result<()> {
        match self {
            Some(token) => print!(rt; "{} {}..{}", token.kind, token.start.0, token.end.0),
            None => print!(rt; "none"),
        }
    }
}

impl<T: Say> Say for Result<T, Refusal> {
    // A refusal by its number.
    fn say(self, rt: &impl Print) -> io::Result<()> {
        match self {
            Ok(value) => value.say(rt),
            Err(refusal) => print!(rt; "refused {refusal}"),
        }
    }
}

// A window and its room, on a line each.
pub(crate) fn view(rt: &impl Print, window: Window, room: &[u32]) -> io::Result<Window> {
    print!(rt; "bytes {}, W {}", window.bytes, lines::narrow(window.slots))?;
    print!(rt;
        ", fetched {}, current {}",
        window.fetched.0, window.current.0
    )?;
    print!(rt;
        ", mode {} at {}",
        u32::from(window.reader.mode),
        window.reader.place.0
    )?;
    print!(rt; ", live {}", window.live)?;
    for mark in window.bookmarks.iter().take(window.live as usize) {
        print!(rt; " @{}", mark.0)?;
    }
    print!(rt; "\nroom:{}", Spaced(room))?;
    Ok(window)
}
