// What a truncation asks of the events in a ring: whether those from a position on balance.
ghost use Rattle.std.specs.Prelude.{◌≡◌, false, ◌<◌, drop};
ghost use Rattle.event_record.specs.Record.{unmatched, depth as depth-behind, balanced};
ghost use Rattle.event_room.specs.Room.{listed};

use event_record::{BEGIN, END, Event, Position};
use rooms::Slot;

// Whether the events from a position on balance among themselves, of so many that there are.
pub(crate) fn is_balanced(room: &[u32], front: Slot, from: Position, count: usize) -> bool
    ensures { result ≡ balanced 0 (drop from.0 (listed room.now front 0 count)) }
{
    let slots = event_room::slots(room.len());
    let mut depth: usize = 0;
    for i in from.0..count {
        let event = event_room::event_at(room, slots, front, Position(i));
        if is_unmatched(depth, event) {
            return false;
        }
        depth = depth_behind(depth, event);
    }
    depth == 0
}

// Whether an event is an End where no node is open.
fn is_unmatched(depth: usize, event: Event) -> bool
    ensures { result ≡ unmatched depth event }
{
    (event.tag == END) & (depth == 0)
}

// How many nodes are open behind an event that is not unmatched, of so many before it; one more can be counted.
fn depth_behind(depth: usize, event: Event) -> usize
    requires depth_bound { depth < 18446744073709551615 }
    requires event_value { unmatched depth event ≡ false }
    ensures { result ≡ depth-behind depth event }
{
    match event.tag {
        BEGIN => depth + 1,
        END => depth - 1,
        _ => depth,
    }
}
