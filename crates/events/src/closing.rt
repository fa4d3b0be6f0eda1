// The event stream's calls that close a node: as it is, or as an error.
ghost use Rattle.std.specs.Prelude.{◌+◌, ◌-◌, ◌<◌, ◌≡◌};
ghost use Rattle.event_record.specs.Record.{end as end-call, end_with_error};
ghost use Rattle.events.specs.Stream.{state, step, done_reply};
ghost use Rattle.events.specs.Parts.{counting, given};
ghost use Rattle.events.specs.ClosingParts.{closing_from};

use crate::{Given, Stream};
use event_record::{BEGIN, END, ERROR_KIND, Event, Position, Span};
use refusals::Refusal;
use tokens::Offset;

impl Stream {
    // Closes the innermost open node, which ends at the end of the last token.
    pub fn end(self, room: &mut [u32], opens: &[usize]) -> Given<()>
        ensures { done_reply result room.new opens.now ≡ step end-call (state self room.old opens.now) }
    {
        self.given(self.close_node(room, opens))
    }

    // Closes it as an error; an empty node goes.
    pub fn end_with_error(self, room: &mut [u32], opens: &[usize]) -> Given<()>
        ensures { done_reply result room.new opens.now ≡ step end_with_error (state self room.old opens.now) }
    {
        self.given(self.fail_node(room, opens))
    }

    // Closes the innermost node, where one is open.
    fn close_node(self, room: &mut [u32], opens: &[usize]) -> Result<((), Stream), Refusal>
        ensures { done_reply (given self result) room.new opens.now ≡ step end-call (state self room.old opens.now) }
    {
        self.check(&*room, opens)?;
        if self.opened == 0 {
            return Err(Refusal::NothingOpen);
        }
        let inner = Position(opens[self.opened - 1]);
        let begin = event_room::event_at(&*room, self.slots, self.front, inner);
        Ok(((), self.close(room, inner, begin.span.start, begin.kind)))
    }

    // Closes it as an error, or drops it where it is empty.
    fn fail_node(self, room: &mut [u32], opens: &[usize]) -> Result<((), Stream), Refusal>
        ensures { done_reply (given self result) room.new opens.now ≡ step end_with_error (state self room.old opens.now) }
    {
        self.check(&*room, opens)?;
        if self.opened == 0 {
            return Err(Refusal::NothingOpen);
        }
        let inner = Position(opens[self.opened - 1]);
        if inner.0 + 1 == self.count {
            return Ok(((), self.counted(inner.0, self.opened - 1, self.last)));
        }
        let begin = event_room::event_at(&*room, self.slots, self.front, inner);
        Ok(((), self.close(room, inner, begin.span.start, ERROR_KIND)))
    }

    // The Begin at a position gets a start, a kind, and as its end the last token's; its End follows behind all events.
    fn close(self, room: &mut [u32], inner: Position, start: Offset, kind: u32) -> Stream
        requires { (0 < self.opened) × (self.count < self.slots) }
        ensures { (result ≡ counting (self.count + 1) (self.opened - 1) self.last self)
            × (room.new ≡ closing_from start.0 kind inner.0 self room.old) }
    {
        let last = self.last;
        let span = Span {
            start,
            end: last.end,
        };
        let opening = Event {
            tag: BEGIN,
            kind,
            span,
        };
        let ending = Event {
            tag: END,
            kind,
            span,
        };
        event_room::put(room, self.slots, self.front, inner, opening);
        event_room::put(room, self.slots, self.front, Position(self.count), ending);
        self.counted(self.count + 1, self.opened - 1, last)
    }
}
