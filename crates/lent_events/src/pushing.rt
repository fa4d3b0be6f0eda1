// The calls that push, on a stream whose record is lent.
ghost use Rattle.std.specs.Prelude.{◌≡◌};
ghost use Rattle.refusals.specs.Calls.{reply};
ghost use Rattle.event_record.specs.Record.{push_token, push_error};
ghost use Rattle.events.specs.Stream.{state, step, done_told};

use event_record::Span;
use events::Stream;
use refusals::Refusal;

// A token, which is the last one then.
pub fn push_token(
    stream: &mut Stream,
    room: &mut [u32],
    opens: &[usize],
    kind: u16,
    span: Span,
) -> Result<(), Refusal>
    ensures { reply (done_told result) (state stream.new room.new opens.now) ≡ step (push_token kind span) (state stream.old room.old opens.now) }
{
    let before = *stream;
    let given = before.push_token(room, opens, kind, span);
    *stream = given.after;
    given.answer
}

// An error with its message.
pub fn push_error(
    stream: &mut Stream,
    room: &mut [u32],
    opens: &[usize],
    message: u16,
    span: Span,
) -> Result<(), Refusal>
    ensures { reply (done_told result) (state stream.new room.new opens.now) ≡ step (push_error message span) (state stream.old room.old opens.now) }
{
    let before = *stream;
    let given = before.push_error(room, opens, message, span);
    *stream = given.after;
    given.answer
}
