// The event stream's calls on a record that stands as numbers in memory of the caller's between them. Each reads the numbers, makes the
// stream's own call and stores what it changes: nothing where it is refused. Numbers that no record has are refused by 24. Calls with the
// same parameters are alike but for the stream's call: those four lines are all that a function for both could share.
#![tactic(auto)]

ghost use Rattle.std.specs.Prelude.{◌≡◌, length};
ghost use Rattle.event_record.specs.Record.{push_token, push_error, begin as begin-node, end as end-node, end_with_error};
ghost use Rattle.event_record.specs.Record.{bookmark as set-bookmark, truncate as truncate-to, remove_bookmark, pop as pop-first, reply};
ghost use Rattle.event_room.specs.Room.{slots_in};
ghost use Rattle.events.specs.Stream.{fresh, done_told, position_told, event_told};
ghost use Rattle.stream_numbers.specs.Numbers.{numbers_of};
ghost use Rattle.live_events.specs.Live.{lent, live};

use event_record::{Event, Position, Span};
use events::Stream;
use refusals::Refusal;
use stream_numbers::Numbers;

// Opens an empty stream over the two rooms.
pub fn open(stream: &mut Numbers, room: &[u32], opens: &[usize])
    ensures { stream.new ≡ numbers_of (fresh (slots_in (length room.now)) (length opens.now)) }
{
    *stream = stream_numbers::numbers_of(Stream::open(room, opens));
}

// Pushes a token.
pub fn push_token(
    stream: &mut Numbers,
    room: &mut [u32],
    opens: &[usize],
    kind: u16,
    span: Span,
) -> Result<(), Refusal>
    ensures { reply (done_told result) (lent stream.new room.new opens.now) ≡ live (push_token kind span) (lent stream.old room.old opens.now) }
{
    let given = stream_numbers::record_of(*stream)?.push_token(room, opens, kind, span);
    given.answer?;
    stream_numbers::store_last(stream, given.after);
    Ok(())
}

// Pushes an error with its message.
pub fn push_error(
    stream: &mut Numbers,
    room: &mut [u32],
    opens: &[usize],
    message: u16,
    span: Span,
) -> Result<(), Refusal>
    ensures { reply (done_told result) (lent stream.new room.new opens.now) ≡ live (push_error message span) (lent stream.old room.old opens.now) }
{
    let given = stream_numbers::record_of(*stream)?.push_error(room, opens, message, span);
    given.answer?;
    stream_numbers::store_last(stream, given.after);
    Ok(())
}

// Begins a node.
pub fn begin(
    stream: &mut Numbers,
    room: &mut [u32],
    opens: &mut [usize],
    kind: u16,
) -> Result<(), Refusal>
    ensures { reply (done_told result) (lent stream.new room.new opens.new) ≡ live (begin-node kind) (lent stream.old room.old opens.old) }
{
    let given = stream_numbers::record_of(*stream)?.begin(room, opens, kind);
    given.answer?;
    stream_numbers::store_opened(stream, given.after);
    Ok(())
}

// Ends the node begun last.
pub fn end(stream: &mut Numbers, room: &mut [u32], opens: &[usize]) -> Result<(), Refusal>
    ensures { reply (done_told result) (lent stream.new room.new opens.now) ≡ live end-node (lent stream.old room.old opens.now) }
{
    let given = stream_numbers::record_of(*stream)?.end(room, opens);
    given.answer?;
    stream_numbers::store_opened(stream, given.after);
    Ok(())
}

// Ends the node begun last, with an error.
pub fn end_with_error(
    stream: &mut Numbers,
    room: &mut [u32],
    opens: &[usize],
) -> Result<(), Refusal>
    ensures { reply (done_told result) (lent stream.new room.new opens.now) ≡ live end_with_error (lent stream.old room.old opens.now) }
{
    let given = stream_numbers::record_of(*stream)?.end_with_error(room, opens);
    given.answer?;
    stream_numbers::store_opened(stream, given.after);
    Ok(())
}

// A bookmark of the end of the stream.
pub fn bookmark(stream: &mut Numbers, room: &[u32], opens: &[usize]) -> Result<Position, Refusal>
    ensures { reply (position_told result) (lent stream.new room.now opens.now) ≡ live set-bookmark (lent stream.old room.now opens.now) }
{
    let given = stream_numbers::record_of(*stream)?.bookmark(room, opens);
    let at = given.answer?;
    stream_numbers::store_bookmarks(stream, given.after);
    Ok(at)
}

// Takes back what was pushed since a position. The bookmark stays live.
pub fn truncate(
    stream: &mut Numbers,
    room: &[u32],
    opens: &[usize],
    position: Position,
) -> Result<(), Refusal>
    ensures { reply (done_told result) (lent stream.new room.now opens.now) ≡ live (truncate-to position) (lent stream.old room.now opens.now) }
{
    let given = stream_numbers::record_of(*stream)?.truncate(room, opens, position);
    given.answer?;
    stream_numbers::store_last(stream, given.after);
    Ok(())
}

// Drops a bookmark.
pub fn remove_bookmark(
    stream: &mut Numbers,
    room: &[u32],
    opens: &[usize],
    position: Position,
) -> Result<(), Refusal>
    ensures { reply (done_told result) (lent stream.new room.now opens.now) ≡ live (remove_bookmark position) (lent stream.old room.now opens.now) }
{
    let given = stream_numbers::record_of(*stream)?.remove_bookmark(room, opens, position);
    given.answer?;
    stream_numbers::store_bookmarks(stream, given.after);
    Ok(())
}

// The first event, which leaves the stream.
pub fn pop(stream: &mut Numbers, room: &[u32], opens: &[usize]) -> Result<Option<Event>, Refusal>
    ensures { reply (event_told result) (lent stream.new room.now opens.now) ≡ live pop-first (lent stream.old room.now opens.now) }
{
    let given = stream_numbers::record_of(*stream)?.pop(room, opens);
    let first = given.answer?;
    if first.is_some() {
        stream_numbers::store_popped(stream, given.after);
    }
    Ok(first)
}
