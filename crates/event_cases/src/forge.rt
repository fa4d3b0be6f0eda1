// The lines that set a field of the stream's record, or a number of the rooms.
use crate::bench::Bench;
use event_record::Span;
use lines::Asked;
use rooms::Slot;
use tokens::Offset;

// A span of two numbers. One that does not fit is the greatest that does.
pub(crate) fn span(start: usize, end: usize) -> Span {
    Span {
        start: Offset(lines::narrow(start)),
        end: Offset(lines::narrow(end)),
    }
}

impl Bench {
    // Sets what a line asks for by its letter; a number of the rooms where there is such a place.
    pub(crate) fn set(&mut self, asked: Asked) {
        let n = asked.first;
        match asked.letter {
            b'R' => set_in(&mut self.room, n, lines::narrow(asked.second)),
            b'I' => set_in(&mut self.opens, n, asked.second),
            b'L' => self.stream.last = span(asked.first, asked.second),
            b'G' => self.stream.gone = span(asked.first, asked.second),
            b'E' => self.stream.slots = n,
            b'D' => self.stream.places = n,
            b'F' => self.stream.front = Slot(n),
            b'C' => self.stream.count = n,
            b'O' => self.stream.opened = n,
            b'B' => self.stream.bookmarks = lines::narrow(n),
            _ => self.stream.popped = n != 0,
        }
    }
}

// Another number at a place of a room, where there is one.
fn set_in<T: Drop>(room: &mut [T], at: usize, number: T) {
    if let Some(there) = room.get_mut(at) {
        *there = number;
    }
}
