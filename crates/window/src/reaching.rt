// Reaching the tokens that a call of the window wants: the window is tested, and what is missing is fetched into the room.
ghost use Rattle.std.specs.Prelude.{suc, ◌≡◌, length};
ghost use Rattle.window.specs.Window.{state, done_reply};
ghost use Rattle.window.specs.SoundLaws.{Fit};
ghost use Rattle.window.specs.Reaching.{reach, reached};

use crate::Window;
use fetching::Stored;
use reader::SOURCE_LIMIT;
use refusals::Refusal;

impl Window {
    // Fetches up to the token n after the current one, or all up to the end: where the window reads on then.
    pub(crate) fn reach(&self, src: &[u8], room: &mut [u32], n: usize) -> Result<Stored, Refusal>
        ensures { done_reply (reached self.now result) room.new ≡ reach src.now (suc n) (state self.now room.old) }
    {
        if !self.is_sound(src.len(), room.len()) {
            return Err(Refusal::NotAsOpened);
        }
        self.fetch(src, room, n)
    }

    // Fetches up to the token n after the current one. Where that one is there, nothing is to be fetched.
    fn fetch(&self, src: &[u8], room: &mut [u32], n: usize) -> Result<Stored, Refusal>
        requires { Fit (length src.now) (length room.old) self.now }
        ensures { done_reply (reached self.now result) room.new ≡ reach src.now (suc n) (state self.now room.old) }
    {
        let reader = self.reader;
        let ready = (self.fetched.0 - self.current.0) as usize;
        if n < ready {
            let next = self.fetched;
            return Ok(Stored { reader, next });
        }

        // from the limit of a source on, every number of tokens is all of them
        let need = (n - ready).min(SOURCE_LIMIT - 1) + 1;
        fetching::fetch(
            src,
            reader,
            room,
            self.fetched,
            need,
            self.slots - self.kept(),
        )
    }
}
