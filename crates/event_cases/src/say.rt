// What is said on standard output.
use event_record::{Event, Position, Span};
use events::Stream;
use lines::Spaced;
use std::io;

// What a call gives that is done: it is said in words. window_cases has a trait like it: one of a library could not be implemented here
// for the event stream's types.
pub(crate) trait Say: Copy {
    fn say(self, rt: &impl Print) -> io::Result<()>;
}

impl Say for () {
    fn say(self, rt: &impl Print) -> io::Result<()> {
        print!(rt; "ok")
    }
}

impl Say for Position {
    fn say(self, rt: &impl Print) -> io::Result<()> {
        print!(rt; "bookmark {}", self.0)
    }
}

impl Say for Event {
    // An event as its four numbers.
    fn say(self, rt: &impl Print) -> io::Result<()> {
        print!(rt;
            "{} {} {} {}",
            self.tag, self.kind, self.span.start.0, self.span.end.0
        )
    }
}

impl Say for Option<Event> {
    fn say(self, rt: &impl Print) -> io::Result<()> {
        match self {
            Some(event) => event.say(rt),
            None => print!(rt; "none"),
        }
    }
}

// An event that so many were said before.
pub(crate) fn next_event(rt: &impl Print, before: usize, event: Event) -> io::Result<()> {
    if before > 0 {
        print!(rt; " ; ")?;
    }
    event.say(rt)
}

// A span as document 01 writes it.
fn span(rt: &impl Print, name: &str, s: Span) -> io::Result<()> {
    print!(rt; " {name} {}..{}", s.start.0, s.end.0)
}

// The stream's record.
fn stream(rt: &impl Print, s: Stream) -> io::Result<()> {
    print!(rt;
        "E {} D {} front {} count {} opened {}",
        s.slots, s.places, s.front.0, s.count, s.opened
    )?;
    print!(rt; " bookmarks {}", s.bookmarks)?;
    span(rt, "last", s.last)?;
    span(rt, "gone", s.gone)?;
    if s.popped {
        print!(rt; " popped")?;
    }
    Ok(())
}

// A stream and its rooms.
pub(crate) fn view(rt: &impl Print, s: Stream, room: &[u32], opens: &[usize]) -> io::Result<()> {
    stream(rt, s)?;
    print!(rt; " room{} opens{}", Spaced(room), Spaced(opens))
}
