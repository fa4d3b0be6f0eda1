// The event stream: the nodes, tokens and errors that a parser finds, in order, in a ring of slots that is lent. Its record, what a call
// gives, and the steps that more than one call is made of; each group of calls has a module. The two rooms stand side by side in each call,
// to which they are lent (document 01): some calls write into both, some into one, some into none.
#![tactic(auto)]

ghost use Rattle.std.specs.Prelude.{◌+◌, ◌-◌, ◌≡◌, length, OnOk, IfErr};
ghost use Rattle.event_room.specs.Room.{slots_in};
ghost use Rattle.events.specs.Stream.{state, fresh};
ghost use Rattle.events.specs.Parts.{counting, given};
ghost use Rattle.events.specs.SoundLaws.{Fit, Unfit};

mod balance;
mod closing;
mod marks;
mod opening;
mod popping;
mod pushing;
mod reading;
mod tests;
mod truncating;

use event_record::Span;
use refusals::Refusal;
use rooms::Slot;
use tokens::Offset;

// Where a span ends at the latest.
pub const SPAN_LIMIT: u32 = 65535;

// How many bookmarks can live.
pub const BOOKMARKS: u32 = 65535;

// The stream's own record. `slots` and `places` are how many event slots and open places were lent at opening; `front` is the slot of the
// first of `count` events; `opened` nodes are open, `bookmarks` live; `last` is the last token, `gone` the last token popped, and
// `popped` says whether anything was popped.
#[derive(Clone, Copy, Debug, PartialEq, Eq)]
pub struct Stream {
    pub slots: usize,
    pub places: usize,
    pub front: Slot,
    pub count: usize,
    pub opened: usize,
    pub bookmarks: u32,
    pub last: Span,
    pub gone: Span,
    pub popped: bool,
}

// What a call gives: its answer, and the stream after it. A refused call gives back the stream as it was.
pub type Given<T> = refusals::Given<T, Stream>;

impl Stream {
    // An empty stream over the two rooms.
    pub fn open(room: &[u32], opens: &[usize]) -> Stream
        ensures { result ≡ fresh (slots_in (length room.now)) (length opens.now) }
    {
        let nowhere = Span {
            start: Offset(0),
            end: Offset(0),
        };
        Stream {
            slots: event_room::slots(room.len()),
            places: opens.len(),
            front: Slot(0),
            count: 0,
            opened: 0,
            bookmarks: 0,
            last: nowhere,
            gone: nowhere,
            popped: false,
        }
    }

    // Refused where the stream is not one over these rooms: the test of 24, which comes before all others.
    fn check(self, room: &[u32], opens: &[usize]) -> Result<(), Refusal>
        ensures fit { OnOk result (Fit (state self room.now opens.now)) }
        ensures refused { IfErr result (Unfit (state self room.now opens.now)) }
    {
        if self.is_sound(room, opens) {
            Ok(())
        } else {
            Err(Refusal::NotAsOpened)
        }
    }

    // What a call gives that comes to this: a value with the stream after it; or a refusal, where the stream stays.
    fn given<T>(self, came: Result<(T, Stream), Refusal>) -> Given<T>
        ensures { result ≡ given self came }
    {
        match came {
            Ok((value, after)) => Given::done(value, after),
            Err(refusal) => Given::refused(refusal, self),
        }
    }

    // The stream with other numbers of events and of open nodes, and another last token.
    fn counted(self, count: usize, opened: usize, last: Span) -> Stream
        ensures { result ≡ counting count opened last self }
    {
        Stream {
            count,
            opened,
            last,
            ..self
        }
    }

    // Slots beyond the events and beyond those that open nodes reserve, one each; 0 where there are not so many slots.
    fn spare(self) -> usize
        ensures { result ≡ self.slots - (self.count + self.opened) }
    {
        self.slots
            .saturating_sub(self.opened)
            .saturating_sub(self.count)
    }
}
