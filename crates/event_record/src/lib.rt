// The events' types, and names for document 01's tags. What the calls of an event stream answer stands in specs/, over a plain list.
#![tactic(auto)]

use tokens::Offset;

// What an event is, by document 01's tags.
pub const BEGIN: u32 = 0;

pub const END: u32 = 1;

pub const TOKEN: u32 = 2;

pub const ERROR: u32 = 3;

// The kind of a node that was ended with an error.
pub const ERROR_KIND: u32 = 0;

// From where to where in the source, the end excluded.
#[derive(Clone, Copy, Debug, PartialEq, Eq)]
pub struct Span {
    pub start: Offset,
    pub end: Offset,
}

// An event: its tag, its kind (an Error's is its message), its span. Tag and kind are numbers and no enum: what stands in a lent slot may
// be any number, and the promise of `event_room::read` hands it on as it is.
#[derive(Clone, Copy, Debug, PartialEq, Eq)]
pub struct Event {
    pub tag: u32,
    pub kind: u32,
    pub span: Span,
}

// The place of an event among the others, counted from the front.
#[derive(Clone, Copy, Debug, PartialEq, Eq)]
pub struct Position(pub usize);
