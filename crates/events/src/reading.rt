// What a truncation reads of the events in a ring: the last token among those before a position.
ghost use Rattle.std.specs.Prelude.{◌≡◌};
ghost use Rattle.event_record.specs.Record.{last_token};
ghost use Rattle.event_room.specs.Room.{listed};

use event_record::{Position, Span, TOKEN};
use rooms::Slot;

// The span of the last token among so many events from the front on; `gone` where there is none.
pub(crate) fn last_token(room: &[u32], front: Slot, count: usize, gone: Span) -> Span
    ensures { result ≡ last_token gone (listed room.now front 0 count) }
{
    let slots = event_room::slots(room.len());
    for i in (0..count).rev() {
        let event = event_room::event_at(room, slots, front, Position(i));
        if event.tag == TOKEN {
            return event.span;
        }
    }
    gone
}
