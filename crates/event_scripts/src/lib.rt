// Replays a script of calls through the event stream's public calls. That its answers are the plain list's is proved of the code itself.
#![tactic(auto)]

ghost use Rattle.std.specs.Prelude.{◌+◌, ◌*◌, ◌≤◌, ◌≡◌, length};
ghost use Rattle.std.proofs.lemmas.List.Edits.{sets};
ghost use Rattle.scripts.specs.Scripts.{call_at};
ghost use Rattle.scripts.specs.Running.{ran};
ghost use Rattle.event_record.specs.Record.{reply};
ghost use Rattle.events.specs.Stream.{state, step, done_told};
ghost use Rattle.event_scripts.specs.Asking.{asked_for};
ghost use Rattle.event_scripts.specs.Script.{form, lent, replayed};

mod asking;

pub use asking::{Asked, Told, ToldGiven, call};
use events::Stream;
use refusals::Refusal;

// Opens an event stream over the two rooms and runs the calls of the script, four numbers each; numbers that are left over are none. Their
// answers, five numbers each, are written one after the other; the numbers behind them stay. Refused, and nothing written, where there is
// no room for all of them.
pub fn replay(
    script: &[u32],
    room: &mut [u32],
    opens: &mut [usize],
    answers: &mut [usize],
) -> Result<(), Refusal>
    ensures { reply (done_told result) (lent room.new opens.new answers.new) ≡ replayed script.now room.old opens.old answers.old }
{
    let calls = script.len() / 4;
    if answers.len() / 5 < calls {
        return Err(Refusal::NoRoom);
    }
    let stream = Stream::open(&*room, &*opens);
    run(stream, script, room, opens, answers, calls);
    Ok(())
}

// Runs the first calls of a script, and notes their answers from the front on; gives the stream after them. It goes by index: of what is
// written through `chunks_exact_mut` a proof knows nothing but the length.
fn run(
    opened: Stream,
    script: &[u32],
    room: &mut [u32],
    opens: &mut [usize],
    answers: &mut [usize],
    calls: usize,
) -> Stream
    requires { (calls * 4 ≤ length script.now) × (calls * 5 ≤ length answers.old) }
    ensures { (state result room.new opens.new, answers.new) ≡ ran form step script.now 0 calls (state opened room.old opens.old) answers.old }
{
    let mut stream = opened;
    for i in 0..calls {
        let at = i * 5;
        let given = asking::call(stream, room, opens, asked(script, i));
        put(answers, at, given.told);
        stream = given.stream;
    }
    stream
}

// The call of a script that is asked for at a place.
fn asked(script: &[u32], i: usize) -> Asked
    requires { i * 4 + 4 ≤ length script.now }
    ensures { asked_for result ≡ call_at form script.now i }
{
    let at = i * 4;
    Asked {
        op: script[at],
        arg: script[at + 1],
        start: script[at + 2],
        end: script[at + 3],
    }
}

// Writes the numbers of an answer at a place.
fn put(answers: &mut [usize], at: usize, told: Told)
    requires { at + 5 ≤ length answers.old }
    ensures { answers.new ≡ sets answers.old at told }
{
    answers[at..at + 5].copy_from_slice(&told);
}
