// The events in the ring of slots: the slot of a position from the front, and the event there. Room, slots and front are parameters and no
// struct: one call reads the room and one writes it, so there would have to be two structs, and the calls' promises speak of any slots.
ghost use Rattle.std.specs.Prelude.{◌≡◌};
ghost use Rattle.event_room.specs.Room.{slot_of, write, read};

use crate::{read, write};
use event_record::{Event, Position};
use rooms::Slot;

// The slot of the event at a position in a ring of so many slots: from the front on, and round the end.
pub fn slot_of(slots: usize, front: Slot, i: Position) -> Slot
    ensures { result ≡ slot_of slots front i.0 }
{
    let ahead = slots.saturating_sub(front.0);
    if i.0 < ahead {
        Slot(front.0 + i.0)
    } else {
        Slot(i.0 - ahead)
    }
}

// The event at a position.
pub fn event_at(room: &[u32], slots: usize, front: Slot, i: Position) -> Event
    ensures { result ≡ read room.now (slot_of slots front i.0) }
{
    read(room, slot_of(slots, front, i))
}

// Writes the event at a position.
pub fn put(room: &mut [u32], slots: usize, front: Slot, i: Position, event: Event)
    ensures { room.new ≡ write room.old (slot_of slots front i.0) event }
{
    write(room, slot_of(slots, front, i), event);
}
