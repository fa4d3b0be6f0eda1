// One call of the event stream by numbers: which one and its arguments, and its answer as five numbers.
ghost use Rattle.std.specs.Prelude.{◌≡◌};
ghost use Rattle.event_record.specs.Record.{Answer, done as done-answer, position as position-answer};
ghost use Rattle.events.specs.Stream.{state, step, told_by, popped};
ghost use Rattle.event_scripts.specs.Asking.{asked_for, numbers, told_reply, told_of};

use event_record::{Event, Position, Span};
use events::{Given, Stream};
use tokens::Offset;

// A call: which one, by its number as scripts from C have it, and its arguments.
#[derive(Clone, Copy)]
pub struct Asked {
    pub op: u32,
    pub arg: u32,
    pub start: u32,
    pub end: u32,
}

// An answer as numbers: which one, and its values.
pub type Told = [usize; 5];

// An answer with the stream after it. The window's scripts have the like over their own numbers: what both could share, `Tell` and `put`,
// asks something of its caller or speaks of one number type, and a public function asks nothing.
#[derive(Clone, Copy)]
pub struct ToldGiven {
    pub told: Told,
    pub stream: Stream,
}

// What a call answers that is done: it is told as five numbers.
trait Tell {
    ghost answer: { Self → Answer };

    // The numbers of the answer.
    fn tell(self) -> Told
        ensures { result ≡ numbers (answer self) };
}

impl Tell for () {
    ghost answer = { λ u. done-answer };

    // Done, and no more.
    fn tell(self) -> Told {
        [4, 0, 0, 0, 0]
    }
}

impl Tell for Position {
    ghost answer = { position-answer };

    // A position.
    fn tell(self) -> Told {
        [3, self.0, 0, 0, 0]
    }
}

impl Tell for Option<Event> {
    ghost answer = { popped };

    // An event, or none.
    fn tell(self) -> Told {
        match self {
            Some(event) => [
                1,
                event.tag as usize,
                event.kind as usize,
                event.span.start.0 as usize,
                event.span.end.0 as usize,
            ],
            None => [0; 5],
        }
    }
}

// Makes the call that is asked for. A number that is none of the calls' pops; of a kind or message the low 16 bits count.
pub fn call(stream: Stream, room: &mut [u32], opens: &mut [usize], asked: Asked) -> ToldGiven
    ensures { told_reply result room.new opens.new ≡ told_of (step (asked_for asked) (state stream room.old opens.old)) }
{
    let kind = (asked.arg % 65536) as u16;
    let span = Span {
        start: Offset(asked.start),
        end: Offset(asked.end),
    };
    let mark = Position(asked.arg as usize);
    match asked.op {
        0 => told(stream.push_token(room, opens, kind, span)),
        1 => told(stream.push_error(room, opens, kind, span)),
        2 => told(stream.begin(room, opens, kind)),
        3 => told(stream.end(room, opens)),
        4 => told(stream.end_with_error(room, opens)),
        5 => told(stream.bookmark(room, opens)),
        6 => told(stream.truncate(room, opens, mark)),
        7 => told(stream.remove_bookmark(room, opens, mark)),
        _ => told(stream.pop(room, opens)),
    }
}

// What a call gives, as numbers.
fn told<T: Tell>(given: Given<T>) -> ToldGiven
    ensures { (result.told ≡ numbers (told_by T.answer given.answer)) × (result.stream ≡ given.after) }
{
    let stream = given.after;
    match given.answer {
        Ok(value) => ToldGiven {
            told: value.tell(),
            stream,
        },
        Err(refusal) => ToldGiven {
            told: [5, u32::from(refusal) as usize, 0, 0, 0],
            stream,
        },
    }
}
