// The tests of the event stream: whether it is one over its rooms. Slots and positions are compared with counts by the numbers in them.
ghost use Rattle.std.specs.Prelude.{◌≤◌, ◌≡◌, length};
ghost use Rattle.events.specs.Stream.{state, sound};
ghost use Rattle.events.specs.SoundLaws.{begun};
ghost use Rattle.events.specs.TestLaws.{within};

use crate::Stream;
use event_record::{BEGIN, Position};

impl Stream {
    // Whether the stream is one over these rooms. Here and below `&` and `|` ask both sides: neither can fail.
    pub(crate) fn is_sound(self, room: &[u32], opens: &[usize]) -> bool
        ensures { result ≡ sound (state self room.now opens.now) }
    {
        let slots = event_room::slots(room.len());
        if (self.slots == slots) & (self.places == opens.len()) & self.is_within() {
            self.is_begun(room, opens)
        } else {
            false
        }
    }

    // Whether the front is one of the slots, and the events and the open nodes are not too many.
    fn is_within(self) -> bool
        ensures { result ≡ within self }
    {
        if self.slots < self.opened {
            return false;
        }
        let inside = (self.slots == 0) | (self.front.0 < self.slots);
        inside & (self.count <= self.slots - self.opened) & (self.opened <= self.places)
    }

    // Whether the last open place is that of a Begin.
    fn is_begun(self, room: &[u32], opens: &[usize]) -> bool
        requires { self.opened ≤ length opens.now }
        ensures { result ≡ begun (state self room.now opens.now) }
    {
        if self.opened == 0 {
            return true;
        }
        let place = self.opened - 1;
        let inner = Position(opens[place]);
        (inner.0 < self.count)
            & (event_room::event_at(room, self.slots, self.front, inner).tag == BEGIN)
    }
}
