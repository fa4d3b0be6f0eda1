// The static library of the C functions: an export for each of the crate c_functions, with the same clauses.
#![tactic(auto)]

ghost use Rattle.std.specs.Prelude.{◌≡◌};
ghost use Rattle.refusals.specs.Calls.{reply};
ghost use Rattle.event_scripts.specs.Script as of_events;
ghost use Rattle.window_scripts.specs.Script as of_window;
ghost use Rattle.c_functions.specs.Answers.{lent};
ghost use Rattle.c_functions.specs.EventsLeft.{events_left};
ghost use Rattle.c_functions.specs.ListingOf.{listing_of};
ghost use Rattle.c_functions.specs.TokensAt.{tokens_at};
ghost use Rattle.c_functions.specs.WindowLeft.{window_left};

// A source's listing, as c_functions::rattle_listing has it.
#[unsafe(no_mangle)]
pub extern "C" fn rattle_listing(src: &[u8], out: &mut [u8], len: &mut usize) -> u32
    ensures { reply result (lent out.new len.new) ≡ listing_of src.now out.old len.old }
{
    c_functions::rattle_listing(src, out, len)
}

// A source's tokens, as c_functions::rattle_tokens has them.
#[unsafe(no_mangle)]
pub extern "C" fn rattle_tokens(
    src: &[u8],
    place: u32,
    mode: u32,
    out: &mut [u32],
    count: &mut u32,
) -> u32
    ensures { reply result (lent out.new count.new) ≡ tokens_at src.now place mode out.old count.old }
{
    c_functions::rattle_tokens(src, place, mode, out, count)
}

// A script of calls on a window, as c_functions::rattle_window runs it.
#[unsafe(no_mangle)]
pub extern "C" fn rattle_window(
    src: &[u8],
    script: &[u32],
    room: &mut [u32],
    answers: &mut [u32],
) -> u32
    ensures { window_left result room.new answers.new ≡ of_window.replayed src.now script.now room.old answers.old }
{
    c_functions::rattle_window(src, script, room, answers)
}

// A script of calls on an event stream, as c_functions::rattle_events runs it.
#[unsafe(no_mangle)]
pub extern "C" fn rattle_events(
    script: &[u32],
    room: &mut [u32],
    opens: &mut [usize],
    answers: &mut [usize],
) -> u32
    ensures { events_left result room.new opens.new answers.new ≡ of_events.replayed script.now room.old opens.old answers.old }
{
    c_functions::rattle_events(script, room, opens, answers)
}
