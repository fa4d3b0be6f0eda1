// The C function that runs a script of calls on an event stream: numbers and slices, so that C and Rust can call it.
ghost use Rattle.std.specs.Prelude.{◌≡◌};
ghost use Rattle.event_scripts.specs.Script.{replayed};
ghost use Rattle.c_functions.specs.EventsLeft.{events_left};

use crate::status;

// A script of calls on an event stream that is opened over the two rooms, four numbers each; their answers, five numbers each, are written
// from the front of `answers` on. Answers 0; or 15 where the answers have no room, and changes nothing that is lent.
pub fn rattle_events(
    script: &[u32],
    room: &mut [u32],
    opens: &mut [usize],
    answers: &mut [usize],
) -> u32
    ensures { events_left result room.new opens.new answers.new ≡ replayed script.now room.old opens.old answers.old }
{
    status(event_scripts::replay(script, room, opens, answers))
}
