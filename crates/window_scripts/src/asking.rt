// The window's calls by number, and their answers as numbers: what a script is made of.
ghost use Rattle.std.specs.Prelude.{◌≡◌};
ghost use Rattle.token_record.specs.Record.{Answer, truth, index, done as done-answer};
ghost use Rattle.window.specs.Window.{state, step, told_by, token_or_none};
ghost use Rattle.window_scripts.specs.Asking.{call_of, numbers, told_reply, told_of};
ghost use Rattle.window_scripts.specs.AskingLaws.{Tells};

use tokens::{Token, TokenIndex};
use window::{Given, Window};

// An answer as numbers: which one, and its values.
pub type Told = [u32; 4];

// What a call gives: the window after it, and its answer as numbers. (The event stream's scripts: crate event_scripts.)
#[derive(Clone, Copy)]
pub struct ToldGiven {
    pub window: Window,
    pub told: Told,
}

// What a call answers that is done: it is told as four numbers.
trait Tell {
    ghost answer: { Self → Answer };

    // The numbers of the answer.
    fn tell(self) -> Told
        ensures { result ≡ numbers (answer self) };
}

impl Tell for Option<Token> {
    ghost answer = { token_or_none };

    // A token, or none.
    fn tell(self) -> Told {
        match self {
            Some(token) => [1, token.kind, token.start.0, token.end.0],
            None => [0; 4],
        }
    }
}

impl Tell for bool {
    ghost answer = { truth };

    // Whether there is more.
    fn tell(self) -> Told {
        [2, u32::from(self), 0, 0]
    }
}

impl Tell for TokenIndex {
    ghost answer = { index };

    // An index.
    fn tell(self) -> Told {
        [3, self.0, 0, 0]
    }
}

impl Tell for () {
    ghost answer = { λ u. done-answer };

    // Done, and no more.
    fn tell(self) -> Told {
        [4, 0, 0, 0]
    }
}

// One call, by its number, as scripts from C have it; a number that is none of the calls' asks for the current index.
pub fn call(window: Window, src: &[u8], room: &mut [u32], op: u32, arg: u32) -> ToldGiven
    ensures { told_reply result room.new ≡ told_of (step src.now (call_of op arg) (state window room.old)) }
{
    let mark = TokenIndex(arg);
    match op {
        0 => told(window.next_token(src, room)),
        1 => told(window.peek_token(src, room, arg as usize)),
        2 => told(window.has_more(src, room)),
        3 => told(window.bookmark(src, room)),
        4 => told(window.restore_bookmark(src, room, mark)),
        5 => told(window.remove_bookmark(src, room, mark)),
        6 => told(window.enter_hex_pattern_mode(src, room)),
        7 => told(window.enter_hex_jump_mode(src, room)),
        _ => told(window.current_token_index(src, room)),
    }
}

// What a call gives, its answer as numbers.
fn told<T: Tell>(given: Given<T>) -> ToldGiven
    ensures { Tells (told_by T.answer given.answer) given.after result }
{
    let window = given.after;
    match given.answer {
        Ok(value) => ToldGiven {
            window,
            told: value.tell(),
        },
        Err(refusal) => ToldGiven {
            window,
            told: [5, u32::from(refusal), 0, 0],
        },
    }
}
