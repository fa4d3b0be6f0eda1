// The window's bookmarks: set at the current index, gone back to, dropped. No call fetches. Each begins with the test of 24, as three
// lines: `?` hands on a Result alone, and a refused call gives back the window too.
ghost use Rattle.std.specs.Prelude.{◌≡◌};
ghost use Rattle.token_record.specs.Record.{bookmark, restore_bookmark, remove_bookmark};
ghost use Rattle.window.specs.Window.{state, step, index_reply, done_reply};

use crate::{Given, Window};
use bookmarks::BOOKMARKS;
use refusals::Refusal;
use tokens::TokenIndex;

impl Window {
    // A bookmark of the current index.
    pub fn bookmark(self, src: &[u8], room: &[u32]) -> Given<TokenIndex>
        ensures { index_reply result room.now ≡ step src.now bookmark (state self room.now) }
    {
        if !self.is_sound(src.len(), room.len()) {
            return Given::refused(Refusal::NotAsOpened, self);
        }
        if self.live as usize == BOOKMARKS {
            return Given::refused(Refusal::TooManyBookmarks, self);
        }
        let mut after = self;
        bookmarks::insert(&mut after.bookmarks, self.live, self.current);
        after.live += 1;
        Given::done(self.current, after)
    }

    // Goes back, or on, to a live bookmark.
    pub fn restore_bookmark(self, src: &[u8], room: &[u32], mark: TokenIndex) -> Given<()>
        ensures { done_reply result room.now ≡ step src.now (restore_bookmark mark) (state self room.now) }
    {
        if !self.is_sound(src.len(), room.len()) {
            return Given::refused(Refusal::NotAsOpened, self);
        }
        if bookmarks::has(&self.bookmarks, self.live, mark) {
            Given::done(
                (),
                Window {
                    current: mark,
                    ..self
                },
            )
        } else {
            Given::refused(Refusal::NotLive, self)
        }
    }

    // Drops a live bookmark.
    pub fn remove_bookmark(self, src: &[u8], room: &[u32], mark: TokenIndex) -> Given<()>
        ensures { done_reply result room.now ≡ step src.now (remove_bookmark mark) (state self room.now) }
    {
        if !self.is_sound(src.len(), room.len()) {
            return Given::refused(Refusal::NotAsOpened, self);
        }
        if !bookmarks::has(&self.bookmarks, self.live, mark) {
            return Given::refused(Refusal::NotLive, self);
        }
        let mut after = self;
        bookmarks::remove(&mut after.bookmarks, self.live, mark);
        after.live -= 1;
        Given::done((), after)
    }
}
