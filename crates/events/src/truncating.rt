// The event stream's call that goes back to a bookmark.
ghost use Rattle.std.specs.Prelude.{◌≡◌};
ghost use Rattle.event_record.specs.Record.{truncate as truncate-call};
ghost use Rattle.events.specs.Stream.{state, step, done_reply};
ghost use Rattle.events.specs.Parts.{given};

use crate::{Given, Stream, balance, reading};
use event_record::Position;
use refusals::Refusal;

impl Stream {
    // Takes back what was pushed since a position. The bookmark stays live.
    pub fn truncate(self, room: &[u32], opens: &[usize], mark: Position) -> Given<()>
        ensures { done_reply result room.now opens.now ≡ step (truncate-call mark) (state self room.now opens.now) }
    {
        self.given(self.cut(room, opens, mark))
    }

    // Takes back the events from a position on, where a bookmark lives, the position is not past the end, and they balance.
    fn cut(self, room: &[u32], opens: &[usize], from: Position) -> Result<((), Stream), Refusal>
        ensures { done_reply (given self result) room.now opens.now ≡ step (truncate-call from) (state self room.now opens.now) }
    {
        self.check(room, opens)?;
        if self.bookmarks == 0 {
            return Err(Refusal::NotLive);
        }
        if self.count < from.0 {
            return Err(Refusal::PastTheEnd);
        }
        let front = self.front;
        if !balance::is_balanced(room, front, from, self.count) {
            return Err(Refusal::Unbalanced);
        }
        let gone = self.gone;
        let last = reading::last_token(room, front, from.0, gone);
        Ok(((), self.counted(from.0, self.opened, last)))
    }
}
