// The window: the next tokens of a source, looked ahead at and gone back to, in room that is lent. What it is, and how it is opened;
// its calls stand in `reading`, `marks` and `modes`, and what they share in `tests` and `reaching`.
#![tactic(auto)]

ghost use Rattle.std.specs.Prelude.{◌≡◌};
ghost use Rattle.window.specs.Window.{fresh_at, unopened, read_on, open_of, done_reply};

mod marks;
mod modes;
mod reaching;
mod reading;
mod tests;

use bookmarks::{BOOKMARKS, Bookmarks};
use reader::{Reader, SOURCE_LIMIT};
use tokens::{Mode, Offset, TokenIndex};

// Where the window stands. The first `live` bookmarks are in use, in order, the others 0; `bytes` and `slots` are the source's length
// and the room's slots at opening; `reader` scans on behind the last of the `fetched` tokens; `current` is the next one to be taken.
// It goes through the calls by value, its bookmarks an array and a count: document 01's form.
#[derive(Clone, Copy, Debug, PartialEq, Eq)]
pub struct Window {
    pub bookmarks: Bookmarks,
    pub live: u32,
    pub bytes: u32,
    pub slots: usize,
    pub reader: Reader,
    pub fetched: TokenIndex,
    pub current: TokenIndex,
}

// What a call gives: its answer, and the window after it. A refused call gives back the window as it was; refused opening gives one that
// every later call refuses by 24.
pub type Given<T> = refusals::Given<T, Window>;

impl Window {
    // A window at the start of a source, in normal mode.
    pub fn open(src: &[u8], room: &[u32]) -> Given<()>
        ensures { done_reply result room.now ≡ open_of src.now room.now }
    {
        match Reader::open(src) {
            Ok(reader) => Given::done(
                (),
                fresh(reader, src.len() as u32, token_room::slots(room.len())),
            ),
            Err(refusal) => Given::refused(refusal, unopened()),
        }
    }

    // The window with another reader and number of tokens fetched.
    fn read_on(self, reader: Reader, fetched: TokenIndex) -> Window
        ensures { result ≡ read_on reader fetched.0 self }
    {
        Window {
            reader,
            fetched,
            ..self
        }
    }
}

// A window that has fetched nothing, with the reader at the start.
fn fresh(reader: Reader, bytes: u32, slots: usize) -> Window
    ensures { result ≡ fresh_at reader bytes slots }
{
    Window {
        bookmarks: [TokenIndex(0); BOOKMARKS],
        live: 0,
        bytes,
        slots,
        reader,
        fetched: TokenIndex(0),
        current: TokenIndex(0),
    }
}

// The window beside refusal 1: one for a source over the limit, which no later call takes.
fn unopened() -> Window
    ensures { result ≡ unopened }
{
    let reader = Reader {
        place: Offset(0),
        mode: Mode::Normal,
    };
    fresh(reader, SOURCE_LIMIT as u32 + 1, 0)
}
