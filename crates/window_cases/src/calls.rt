// Each call of the window: made, its answer said, and the window after it taken over.
use crate::bench::Bench;
use crate::say;
use crate::say::Say;
use lines::Asked;
use std::io;
use tokens::TokenIndex;
use window::{Given, Window};

// Opens a window, and says the answer.
fn open(rt: &impl Print, src: &[u8], room: &[u32]) -> io::Result<Window> {
    let given = Window::open(src, room);
    given.answer.say(rt)?;
    Ok(given.after)
}

// Says what a call answered, and where the window that it gave back is the one handed in.
fn said<T: Say>(rt: &impl Print, before: Window, given: Given<T>) -> io::Result<Window> {
    given.answer.say(rt)?;
    if given.after == before {
        print!(rt; ", same window")?;
    }
    Ok(given.after)
}

// Makes the call that a line asks for, by its first letter. Peek takes every n; an index has 32 bits, the greatest standing for all above.
fn made(
    rt: &impl Print,
    window: Window,
    asked: Asked,
    src: &[u8],
    room: &mut [u32],
) -> io::Result<Window> {
    let index = TokenIndex(lines::narrow(asked.first));
    match asked.letter {
        b'o' => open(rt, src, room),
        b'v' => say::view(rt, window, room),
        b'n' => said(rt, window, window.next_token(src, room)),
        b'p' => said(rt, window, window.peek_token(src, room, asked.first)),
        b'm' => said(rt, window, window.has_more(src, room)),
        b'b' => said(rt, window, window.bookmark(src, room)),
        b'r' => said(rt, window, window.restore_bookmark(src, room, index)),
        b'd' => said(rt, window, window.remove_bookmark(src, room, index)),
        b'h' => said(rt, window, window.enter_hex_pattern_mode(src, room)),
        b'j' => said(rt, window, window.enter_hex_jump_mode(src, room)),
        _ => said(rt, window, window.current_token_index(src, room)),
    }
}

impl<'t> Bench<'t> {
    // Makes a call with what is lent, where there is so much to lend.
    pub(crate) fn call(&mut self, rt: &impl Print, asked: Asked) -> io::Result<()> {
        let (Some(src), Some(room)) = (self.src, self.room.get_mut(..self.numbers)) else {
            return Ok(());
        };
        print!(rt; ": ")?;
        self.window = made(rt, self.window, asked, src, room)?;
        Ok(())
    }
}
