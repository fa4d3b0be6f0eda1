// The C function that runs a script of calls on a window: numbers and slices, so that C and Rust can call it.
ghost use Rattle.std.specs.Prelude.{◌≡◌};
ghost use Rattle.window_scripts.specs.Script.{replayed};
ghost use Rattle.c_functions.specs.WindowLeft.{window_left};

use crate::status;

// A script of calls on a window that is opened on the source, two numbers each; their answers, four numbers each, are written from the
// front of `answers` on. Answers 0; or 1 where the source is over the limit, then 15 where the answers have no room, and changes nothing
// that is lent.
pub fn rattle_window(src: &[u8], script: &[u32], room: &mut [u32], answers: &mut [u32]) -> u32
    ensures { window_left result room.new answers.new ≡ replayed src.now script.now room.old answers.old }
{
    status(window_scripts::replay(src, script, room, answers))
}
