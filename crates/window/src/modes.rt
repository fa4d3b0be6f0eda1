// The window's current index, and its switches of mode.
ghost use Rattle.std.specs.Prelude.{◌≡◌};
ghost use Rattle.token_record.specs.Record.{current_token_index, enter_hex_pattern_mode, enter_hex_jump_mode};
ghost use Rattle.window.specs.Window.{state, step, index_reply, done_reply};
ghost use Rattle.window.specs.SwitchLaws.{switch};

use crate::{Given, Window};
use reader::Reader;
use refusals::Refusal;
use tokens::TokenIndex;

impl Window {
    // The index of the current token.
    pub fn current_token_index(self, src: &[u8], room: &[u32]) -> Given<TokenIndex>
        ensures { index_reply result room.now ≡ step src.now current_token_index (state self room.now) }
    {
        if !self.is_sound(src.len(), room.len()) {
            return Given::refused(Refusal::NotAsOpened, self);
        }
        Given::done(self.current, self)
    }

    // Switches to the pattern mode, behind the last token fetched.
    pub fn enter_hex_pattern_mode(self, src: &[u8], room: &[u32]) -> Given<()>
        ensures { done_reply result room.now ≡ step src.now enter_hex_pattern_mode (state self room.now) }
    {
        let in_pattern_mode = self.reader.enter_hex_pattern_mode();
        self.switch(src.len(), room.len(), in_pattern_mode)
    }

    // Switches to the jump mode, behind the last token fetched.
    pub fn enter_hex_jump_mode(self, src: &[u8], room: &[u32]) -> Given<()>
        ensures { done_reply result room.now ≡ step src.now enter_hex_jump_mode (state self room.now) }
    {
        let in_jump_mode = self.reader.enter_hex_jump_mode();
        self.switch(src.len(), room.len(), in_jump_mode)
    }

    // Tests the window, and goes on with another reader behind the last token fetched. Inlined, for what it gives is large: called, the
    // library for C would need memset and memmove beside memcpy.
    #[inline(always)]
    fn switch(self, bytes: usize, len: usize, reader: Reader) -> Given<()>
        ensures { result ≡ switch bytes len reader self }
    {
        if !self.is_sound(bytes, len) {
            return Given::refused(Refusal::NotAsOpened, self);
        }
        Given::done((), self.read_on(reader, self.fetched))
    }
}
