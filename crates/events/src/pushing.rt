// The event stream's calls that push: a token, an error.
ghost use Rattle.std.specs.Prelude.{◌≡◌};
ghost use Rattle.event_record.specs.Record.{push_token, push_error};
ghost use Rattle.events.specs.Stream.{state, step, done_reply};
ghost use Rattle.events.specs.Parts.{given};
ghost use Rattle.events.specs.PushingParts.{pushes_if_sound};

use crate::{Given, SPAN_LIMIT, Stream};
use event_record::{ERROR, Event, Position, Span, TOKEN};
use refusals::Refusal;

impl Stream {
    // A token, which is the last one then.
    pub fn push_token(self, room: &mut [u32], opens: &[usize], kind: u16, span: Span) -> Given<()>
        ensures { done_reply result room.new opens.now ≡ step (push_token kind span) (state self room.old opens.now) }
    {
        let event = Event {
            tag: TOKEN,
            kind: u32::from(kind),
            span,
        };
        self.given(self.push(room, opens, event, span))
    }

    // An error with its message.
    pub fn push_error(
        self,
        room: &mut [u32],
        opens: &[usize],
        message: u16,
        span: Span,
    ) -> Given<()>
        ensures { done_reply result room.new opens.now ≡ step (push_error message span) (state self room.old opens.now) }
    {
        let event = Event {
            tag: ERROR,
            kind: u32::from(message),
            span,
        };
        self.given(self.push(room, opens, event, self.last))
    }

    // Pushes an event, behind which the last token is `last`.
    fn push(
        self,
        room: &mut [u32],
        opens: &[usize],
        event: Event,
        last: Span,
    ) -> Result<((), Stream), Refusal>
        ensures { done_reply (given self result) room.new opens.now ≡ pushes_if_sound event last (state self room.old opens.now) }
    {
        self.check(&*room, opens)?;
        let span = event.span;
        if (span.end.0 < span.start.0) | (SPAN_LIMIT < span.end.0) {
            return Err(Refusal::NoSpan);
        }
        if self.spare() < 1 {
            return Err(Refusal::EventsFull);
        }
        event_room::put(room, self.slots, self.front, Position(self.count), event);
        Ok(((), self.counted(self.count + 1, self.opened, last)))
    }
}
