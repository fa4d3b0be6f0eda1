// The event stream's call that pops.
ghost use Rattle.std.specs.Prelude.{◌<◌, ◌≡◌};
ghost use Rattle.event_record.specs.Record.{pop as pop-call};
ghost use Rattle.events.specs.Stream.{state, step, event_reply};
ghost use Rattle.events.specs.Parts.{slot_at, given};
ghost use Rattle.events.specs.PoppingParts.{passing, gone_after};

use crate::{Given, Stream};
use event_record::{Event, Position, TOKEN};
use refusals::Refusal;

impl Stream {
    // The first event, which leaves the stream; none, where the stream is empty.
    pub fn pop(self, room: &[u32], opens: &[usize]) -> Given<Option<Event>>
        ensures { event_reply result room.now opens.now ≡ step pop-call (state self room.now opens.now) }
    {
        self.given(self.pop_first(room, opens))
    }

    // The first event, where nothing is open and no bookmark lives.
    fn pop_first(self, room: &[u32], opens: &[usize]) -> Result<(Option<Event>, Stream), Refusal>
        ensures { event_reply (given self result) room.now opens.now ≡ step pop-call (state self room.now opens.now) }
    {
        self.check(room, opens)?;
        if (0 < self.bookmarks) | (0 < self.opened) {
            return Err(Refusal::NotSettled);
        }
        if self.count == 0 {
            return Ok((None, self));
        }
        let event = event_room::read(room, self.front);
        Ok((Some(event), self.passed(event)))
    }

    // The stream behind its first event, which is remembered where it is a token.
    fn passed(self, event: Event) -> Stream
        requires { 0 < self.count }
        ensures { result ≡ passing (slot_at self 1) (gone_after event self.gone) self }
    {
        Stream {
            front: event_room::slot_of(self.slots, self.front, Position(1)),
            count: self.count - 1,
            gone: if event.tag == TOKEN {
                event.span
            } else {
                self.gone
            },
            popped: true,
            ..self
        }
    }
}
