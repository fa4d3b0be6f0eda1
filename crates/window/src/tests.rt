// The tests of the window: whether it is one for a source and a room, and how many tokens it keeps. Places and indexes are compared by
// the numbers in them: they are counts of two kinds, and the definitions compare them so.
ghost use Rattle.std.specs.Prelude.{◌≡◌};
ghost use Rattle.window.specs.Window.{sound};
ghost use Rattle.window.specs.TestLaws.{kept_behind_first, as_opened, placed};

use crate::Window;
use reader::SOURCE_LIMIT;

impl Window {
    // Whether the window is one for a source of so many bytes and a room of so many numbers.
    pub(crate) fn is_sound(&self, bytes: usize, len: usize) -> bool
        ensures { result ≡ sound bytes len self.now }
    {
        if !self.is_as_opened(bytes, len) {
            return false;
        }
        if !bookmarks::is_sound(&self.bookmarks, self.live, self.fetched) {
            return false;
        }
        self.current.0 <= self.fetched.0 && self.kept() <= self.slots && self.is_placed(bytes)
    }

    // How many tokens are kept: those from the smaller of the current index and the first bookmark on, which is the least where they are in
    // order.
    pub(crate) fn kept(&self) -> usize
        ensures { result ≡ kept_behind_first self.now }
    {
        let low = bookmarks::low(self.bookmarks[0], self.live, self.current);
        self.fetched.0.saturating_sub(low.0) as usize
    }

    // Whether a source of so many bytes and a room of so many numbers are as they were at opening.
    fn is_as_opened(&self, bytes: usize, len: usize) -> bool
        ensures { result ≡ as_opened self.now.bytes self.now.slots bytes len }
    {
        bytes <= SOURCE_LIMIT
            && self.bytes as usize == bytes
            && self.slots == token_room::slots(len)
    }

    // Whether the reader's place is one behind so many tokens, in a source of so many bytes.
    fn is_placed(&self, bytes: usize) -> bool
        ensures { result ≡ placed self.now.reader.place.0 self.now.fetched.0 bytes }
    {
        self.fetched.0 <= self.reader.place.0 && self.reader.place.0 as usize <= bytes
    }
}
