// The event stream's calls on bookmarks: one made, one removed.
ghost use Rattle.std.specs.Prelude.{◌≡◌};
ghost use Rattle.event_record.specs.Record.{bookmark as bookmark-call, remove_bookmark};
ghost use Rattle.events.specs.Stream.{state, step, done_reply, position_reply};
ghost use Rattle.events.specs.Parts.{given};
ghost use Rattle.events.specs.MarkingParts.{marking};

use crate::{BOOKMARKS, Given, Stream};
use event_record::Position;
use refusals::Refusal;

impl Stream {
    // A bookmark of the end of the stream.
    pub fn bookmark(self, room: &[u32], opens: &[usize]) -> Given<Position>
        ensures { position_reply result room.now opens.now ≡ step bookmark-call (state self room.now opens.now) }
    {
        self.given(self.mark_end(room, opens))
    }

    // Drops a bookmark.
    pub fn remove_bookmark(self, room: &[u32], opens: &[usize], mark: Position) -> Given<()>
        ensures { done_reply result room.now opens.now ≡ step (remove_bookmark mark) (state self room.now opens.now) }
    {
        self.given(self.unmark(room, opens, mark))
    }

    // One bookmark more, where there are not too many.
    fn mark_end(self, room: &[u32], opens: &[usize]) -> Result<(Position, Stream), Refusal>
        ensures { position_reply (given self result) room.now opens.now ≡ step bookmark-call (state self room.now opens.now) }
    {
        self.check(room, opens)?;
        if BOOKMARKS <= self.bookmarks {
            return Err(Refusal::TooManyBookmarks);
        }
        Ok((Position(self.count), self.marked(self.bookmarks + 1)))
    }

    // One bookmark less, where one lives and the position is not past the end.
    fn unmark(self, room: &[u32], opens: &[usize], mark: Position) -> Result<((), Stream), Refusal>
        ensures { done_reply (given self result) room.now opens.now ≡ step (remove_bookmark mark) (state self room.now opens.now) }
    {
        self.check(room, opens)?;
        if self.bookmarks == 0 {
            return Err(Refusal::NotLive);
        }
        if self.count < mark.0 {
            return Err(Refusal::PastTheEnd);
        }
        Ok(((), self.marked(self.bookmarks - 1)))
    }

    // The stream with so many bookmarks.
    fn marked(self, bookmarks: u32) -> Stream
        ensures { result ≡ marking bookmarks self }
    {
        Stream { bookmarks, ..self }
    }
}
