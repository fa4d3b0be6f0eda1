// The refusals, by name and by document 01's number.
#![tactic(auto)]

ghost use Rattle.std.specs.Prelude.{◌≡◌};
ghost use Rattle.refusals.specs.Refusals.{number_of};

use std::error::Error;
use std::fmt;

// Why a call is refused.
#[derive(Clone, Copy, Debug, PartialEq, Eq)]
pub enum Refusal {
    // opening: the source is over the limit
    SourceTooLong,
    // next, peek, has_more: more tokens would be kept than there are slots
    WindowFull,
    // bookmark: as many are live as there can be
    TooManyBookmarks,
    // restore, remove, truncate: no such bookmark is live
    NotLive,
    // token, error, begin: no slot is left beyond those that open nodes reserve
    EventsFull,
    // either end: no node is open
    NothingOpen,
    // token, error: the span starts behind its end, or ends past the limit
    NoSpan,
    // truncate: the events from the position on do not balance
    Unbalanced,
    // pop: a bookmark lives or a node is open
    NotSettled,
    // truncate, remove: the position is past the end
    PastTheEnd,
    // begin: as many nodes are open as there are places
    TooDeep,
    // what is lent has no room for the answer
    NoRoom,
    // a later call: what is handed over is not as it was at opening
    NotAsOpened,
}

// What a call gives: its answer, and the state after it. A refused call gives back the state as it was. The state stands first: with a gap
// before it, behind a short answer, the library for C would need memset beside memcpy.
#[derive(Clone, Copy)]
pub struct Given<T, S> {
    pub after: S,
    pub answer: Result<T, Refusal>,
}

impl<T, S> Given<T, S> {
    // Done, with a value.
    pub fn done(value: T, after: S) -> Given<T, S>
        ensures { result ≡ record { answer = Ok value; after = after } }
    {
        Given {
            answer: Ok(value),
            after,
        }
    }

    // Refused: the state is the one before.
    pub fn refused(refusal: Refusal, before: S) -> Given<T, S>
        ensures { result ≡ record { answer = Err refusal; after = before } }
    {
        Given {
            answer: Err(refusal),
            after: before,
        }
    }
}

impl<T, S: Copy> Given<T, S> {
    // The answer; the state after it is left where it is lent.
    pub fn left_in(self, state: &mut S) -> Result<T, Refusal>
        ensures { (result ≡ self.answer) × (state.new ≡ self.after) }
    {
        *state = self.after;
        self.answer
    }
}

impl From<Refusal> for u32 {
    ghost from_gives = { λ refusal n. n ≡ number_of refusal };

    // The number of a refusal.
    fn from(refusal: Refusal) -> u32 {
        match refusal {
            Refusal::SourceTooLong => 1,
            Refusal::WindowFull => 2,
            Refusal::TooManyBookmarks => 3,
            Refusal::NotLive => 4,
            Refusal::EventsFull => 5,
            Refusal::NothingOpen => 6,
            Refusal::NoSpan => 7,
            Refusal::Unbalanced => 8,
            Refusal::NotSettled => 9,
            Refusal::PastTheEnd => 10,
            Refusal::TooDeep => 11,
            Refusal::NoRoom => 15,
            Refusal::NotAsOpened => 24,
        }
    }
}

impl fmt::Display for Refusal {
    // A refusal is written as its number.
    fn fmt<W: fmt::Write>(&self, f: &mut fmt::Formatter<W>) -> fmt::Result {
        write!(f, "{}", u32::from(*self))
    }
}

impl Error for Refusal {}
