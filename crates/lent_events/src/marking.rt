// The calls on bookmarks, truncate and pop, on a stream whose record is lent.
ghost use Rattle.std.specs.Prelude.{◌≡◌};
ghost use Rattle.refusals.specs.Calls.{reply};
ghost use Rattle.event_record.specs.Record.{bookmark as bookmark_call, truncate as truncate_call, remove_bookmark, pop as pop_call};
ghost use Rattle.events.specs.Stream.{state, step, done_told, position_told, event_told};

use event_record::{Event, Position};
use events::Stream;
use refusals::Refusal;

// A bookmark of the end of the stream.
pub fn bookmark(stream: &mut Stream, room: &[u32], opens: &[usize]) -> Result<Position, Refusal>
    ensures { reply (position_told result) (state stream.new room.now opens.now) ≡ step bookmark_call (state stream.old room.now opens.now) }
{
    let before = *stream;
    let given = before.bookmark(room, opens);
    *stream = given.after;
    given.answer
}

// Takes back what was pushed since a position. The bookmark stays live.
pub fn truncate(
    stream: &mut Stream,
    room: &[u32],
    opens: &[usize],
    mark: Position,
) -> Result<(), Refusal>
    ensures { reply (done_told result) (state stream.new room.now opens.now) ≡ step (truncate_call mark) (state stream.old room.now opens.now) }
{
    let before = *stream;
    let given = before.truncate(room, opens, mark);
    *stream = given.after;
    given.answer
}

// Drops a bookmark.
pub fn remove_bookmark(
    stream: &mut Stream,
    room: &[u32],
    opens: &[usize],
    mark: Position,
) -> Result<(), Refusal>
    ensures { reply (done_told result) (state stream.new room.now opens.now) ≡ step (remove_bookmark mark) (state stream.old room.now opens.now) }
{
    let before = *stream;
    let given = before.remove_bookmark(room, opens, mark);
    *stream = given.after;
    given.answer
}

// The first event, which leaves the stream.
pub fn pop(stream: &mut Stream, room: &[u32], opens: &[usize]) -> Result<Option<Event>, Refusal>
    ensures { reply (event_told result) (state stream.new room.now opens.now) ≡ step pop_call (state stream.old room.now opens.now) }
{
    let before = *stream;
    let given = before.pop(room, opens);
    *stream = given.after;
    given.answer
}
