// Replays a script of calls through the window's public calls. That its answers are the record's is demand 3 of the code itself.
#![tactic(auto)]

ghost use Rattle.std.specs.Prelude.{◌+◌, ◌*◌, ◌≤◌, ◌≡◌, length};
ghost use Rattle.std.proofs.lemmas.List.Edits.{sets};
ghost use Rattle.scripts.specs.Running.{ran};
ghost use Rattle.token_record.specs.Record.{reply};
ghost use Rattle.window.specs.Window.{state, step, done_told};
ghost use Rattle.window_scripts.specs.Asking.{form};
ghost use Rattle.window_scripts.specs.Script.{lent, replayed};
ghost use Rattle.window_scripts.specs.ReplayLaws.{left};

mod asking;

pub use asking::{Told, ToldGiven, call};
use refusals::Refusal;
use window::Window;

// Opens a window on the source and runs the calls of the script, two numbers each; a last odd number is none. Their answers, four
// numbers each, are written one after the other; the numbers behind them stay. Refused, and nothing written, where the source is over the
// limit, and where there is no room for all answers.
pub fn replay(
    src: &[u8],
    script: &[u32],
    room: &mut [u32],
    answers: &mut [u32],
) -> Result<(), Refusal>
    ensures { reply (done_told result) (lent room.new answers.new) ≡ replayed src.now script.now room.old answers.old }
{
    let opened = Window::open(src, room);
    opened.answer?;
    let calls = script.len() / 2;
    if answers.len() / 4 < calls {
        return Err(Refusal::NoRoom);
    }
    run(opened.after, src, script, room, answers, calls);
    Ok(())
}

// Runs the first calls of a script, and notes their answers from the front on. It goes by index: of what is written through
// `chunks_exact_mut` a proof knows nothing but the length.
fn run(
    opened: Window,
    src: &[u8],
    script: &[u32],
    room: &mut [u32],
    answers: &mut [u32],
    calls: usize,
)
    requires { (calls * 2 ≤ length script.now) × (calls * 4 ≤ length answers.old) }
    ensures { lent room.new answers.new ≡ left (ran form (step src.now) script.now 0 calls (state opened room.old) answers.old) }
{
    let mut window = opened;
    for i in 0..calls {
        let given = call(window, src, room, script[i * 2], script[i * 2 + 1]);
        put(answers, i * 4, given.told);
        window = given.window;
    }
}

// Writes the numbers of an answer at a place.
fn put(answers: &mut [u32], at: usize, told: Told)
    requires { at + 4 ≤ length answers.old }
    ensures { answers.new ≡ sets answers.old at told }
{
    answers[at..at + 4].copy_from_slice(&told);
}
