// The calls on nodes, on a stream whose record is lent.
ghost use Rattle.std.specs.Prelude.{◌≡◌};
ghost use Rattle.refusals.specs.Calls.{reply};
ghost use Rattle.event_record.specs.Record.{begin as begin_call, end as end_call, end_with_error};
ghost use Rattle.events.specs.Stream.{state, step, done_told};

use events::Stream;
use refusals::Refusal;

// Opens a node, which starts at the end of the last token.
pub fn begin(
    stream: &mut Stream,
    room: &mut [u32],
    opens: &mut [usize],
    kind: u16,
) -> Result<(), Refusal>
    ensures { reply (done_told result) (state stream.new room.new opens.new) ≡ step (begin_call kind) (state stream.old room.old opens.old) }
{
    let before = *stream;
    let given = before.begin(room, opens, kind);
    *stream = given.after;
    given.answer
}

// Closes the innermost open node, which ends at the end of the last token.
pub fn end(stream: &mut Stream, room: &mut [u32], opens: &[usize]) -> Result<(), Refusal>
    ensures { reply (done_told result) (state stream.new room.new opens.now) ≡ step end_call (state stream.old room.old opens.now) }
{
    let before = *stream;
    let given = before.end(room, opens);
    *stream = given.after;
    given.answer
}

// Closes it as an error; an empty node goes.
pub fn end_with_error(stream: &mut Stream, room: &mut [u32], opens: &[usize]) -> Result<(), Refusal>
    ensures { reply (done_told result) (state stream.new room.new opens.now) ≡ step end_with_error (state stream.old room.old opens.now) }
{
    let before = *stream;
    let given = before.end_with_error(room, opens);
    *stream = given.after;
    given.answer
}
