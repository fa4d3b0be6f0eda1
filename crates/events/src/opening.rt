// The event stream's call that opens a node.
ghost use Rattle.std.specs.Prelude.{◌≡◌};
ghost use Rattle.event_record.specs.Record.{begin as begin-call};
ghost use Rattle.events.specs.Stream.{state, step, done_reply};
ghost use Rattle.events.specs.Parts.{given};

use crate::{Given, Stream};
use event_record::{BEGIN, Event, Position, Span};
use refusals::Refusal;

impl Stream {
    // Opens a node, which starts at the end of the last token.
    pub fn begin(self, room: &mut [u32], opens: &mut [usize], kind: u16) -> Given<()>
        ensures { done_reply result room.new opens.new ≡ step (begin-call kind) (state self room.old opens.old) }
    {
        self.given(self.open_node(room, opens, kind))
    }

    // Opens a node, where a place and two slots are left.
    fn open_node(
        self,
        room: &mut [u32],
        opens: &mut [usize],
        kind: u16,
    ) -> Result<((), Stream), Refusal>
        ensures { done_reply (given self result) room.new opens.new ≡ step (begin-call kind) (state self room.old opens.old) }
    {
        self.check(&*room, &*opens)?;
        if self.places <= self.opened {
            return Err(Refusal::TooDeep);
        }
        if self.spare() < 2 {
            return Err(Refusal::EventsFull);
        }
        let last = self.last;
        let event = Event {
            tag: BEGIN,
            kind: u32::from(kind),
            span: Span {
                start: last.end,
                end: last.end,
            },
        };
        opens[self.opened] = self.count;
        event_room::put(room, self.slots, self.front, Position(self.count), event);
        Ok(((), self.counted(self.count + 1, self.opened + 1, last)))
    }
}
