// The lent room of the events: slots of four numbers each (tag, kind or message, start, end), and the ring that they are (`ring`).
// A slot is compared with how many there are by the number in it.
#![tactic(auto)]

ghost use Rattle.std.specs.Prelude.{◌≡◌, ◌+◌, ◌*◌, ◌≤◌, length};
ghost use Rattle.event_room.specs.Room.{width, slots_in, write_at, read_at, write, read};

mod ring;

use event_record::{Event, Span};
pub use ring::{event_at, put, slot_of};
use rooms::Slot;
use tokens::Offset;

// How many numbers a slot has: those of an event.
pub const WIDTH: usize = 4;

// How many slots a room of this length has.
pub fn slots(len: usize) -> usize
    ensures { result ≡ slots_in len }
{
    len / WIDTH
}

// Writes an event into a slot. A room without that slot stays as it is.
pub fn write(room: &mut [u32], at: Slot, event: Event)
    ensures { room.new ≡ write room.old at event }
{
    if at.0 < slots(room.len()) {
        write_at(room, at, event);
    }
}

// The event that a slot holds; an event of zeros where there is no such slot.
pub fn read(room: &[u32], at: Slot) -> Event
    ensures { result ≡ read room.now at }
{
    if at.0 < slots(room.len()) {
        read_at(room, at)
    } else {
        Event {
            tag: 0,
            kind: 0,
            span: Span {
                start: Offset(0),
                end: Offset(0),
            },
        }
    }
}

// Writes an event into a slot that is there.
fn write_at(room: &mut [u32], at: Slot, event: Event)
    requires { at.0 * width + width ≤ length room.old }
    ensures { room.new ≡ write_at room.old at event }
{
    let k = at.0 * WIDTH;
    room[k] = event.tag;
    room[k + 1] = event.kind;
    room[k + 2] = event.span.start.0;
    room[k + 3] = event.span.end.0;
}

// The event that a slot holds that is there.
fn read_at(room: &[u32], at: Slot) -> Event
    requires { at.0 * width + width ≤ length room.now }
    ensures { result ≡ read_at room.now at }
{
    let k = at.0 * WIDTH;
    Event {
        tag: room[k],
        kind: room[k + 1],
        span: Span {
            start: Offset(room[k + 2]),
            end: Offset(room[k + 3]),
        },
    }
}
