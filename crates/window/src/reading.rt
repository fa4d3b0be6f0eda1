// The window's tokens: the next one, those ahead of it, and whether there are more. Each call first reaches what it wants of the source.
// Indexes are compared by the numbers in them, as the definitions do it.
ghost use Rattle.std.specs.Prelude.{◌≤◌, ◌≡◌, Ok};
ghost use Rattle.token_record.specs.Record.{next_token, peek_token, has_more};
ghost use Rattle.window.specs.Window.{state, seen, past, step, token_told, token_reply, more_reply};

use crate::{Given, Window};
use tokens::{Token, TokenIndex};

impl Window {
    // The current token, and on to the next one.
    pub fn next_token(self, src: &[u8], room: &mut [u32]) -> Given<Option<Token>>
        ensures { token_reply result room.new ≡ step src.now next_token (state self room.old) }
    {
        match self.reach(src, room, 0) {
            Ok(reached) => {
                let after = self.read_on(reached.reader, reached.next);
                Given::done(after.look(room, 0), after.past())
            }
            Err(refusal) => Given::refused(refusal, self),
        }
    }

    // The token n after the current one.
    pub fn peek_token(self, src: &[u8], room: &mut [u32], n: usize) -> Given<Option<Token>>
        ensures { token_reply result room.new ≡ step src.now (peek_token n) (state self room.old) }
    {
        match self.reach(src, room, n) {
            Ok(reached) => {
                let after = self.read_on(reached.reader, reached.next);
                Given::done(after.look(room, n), after)
            }
            Err(refusal) => Given::refused(refusal, self),
        }
    }

    // Whether there is a current token.
    pub fn has_more(self, src: &[u8], room: &mut [u32]) -> Given<bool>
        ensures { more_reply result room.new ≡ step src.now has_more (state self room.old) }
    {
        match self.reach(src, room, 0) {
            Ok(reached) => {
                let after = self.read_on(reached.reader, reached.next);
                Given::done(after.current.0 < after.fetched.0, after)
            }
            Err(refusal) => Given::refused(refusal, self),
        }
    }

    // The token n after the current one, where it has been fetched.
    fn look(&self, room: &[u32], n: usize) -> Option<Token>
        requires { self.now.current.0 ≤ self.now.fetched.0 }
        ensures { token_told (Ok result) ≡ seen self.now.current.0 self.now.fetched.0 n room.now }
    {
        let ready = (self.fetched.0 - self.current.0) as usize;
        if n < ready {
            let i = TokenIndex(self.current.0 + n as u32);
            Some(token_room::read(room, i))
        } else {
            None
        }
    }

    // The window past its current token, where there is one.
    fn past(self) -> Window
        ensures { result ≡ past self }
    {
        let mut after = self;
        if self.current.0 < self.fetched.0 {
            after.current.0 += 1;
        }
        after
    }
}
