// The lent room: token i stands as kind, start, end in slot i mod W, W being the number of slots. A slot that is there is required by the
// one function that writes it and the one that reads it, and there is one of each. event_room has the like for its own slots; what is the
// same of both, the laws of what stands in slots, is said once, in rooms.
#![tactic(auto)]

ghost use Rattle.std.specs.Prelude.{◌≡◌, ◌+◌, ◌*◌, ◌≤◌, ◌<◌, length};
ghost use Rattle.token_room.specs.Room.{width, slots_in, slot_of, write_at, read_at, write, read};

use rooms::Slot;
use tokens::{Offset, Token, TokenIndex};

// How many numbers a slot has: those of a token.
pub const WIDTH: usize = 3;

// How many slots a room of this length has.
pub fn slots(len: usize) -> usize
    ensures { result ≡ slots_in len }
{
    len / WIDTH
}

// Writes token i into its slot. A room with no slot stays as it is.
pub fn write(room: &mut [u32], i: TokenIndex, token: Token)
    ensures { room.new ≡ write room.old i token }
{
    let n = slots(room.len());
    if 0 < n {
        write_at(room, slot_of(i, n), token);
    }
}

// What the slot of token i holds; a token of zeros where there is no slot.
pub fn read(room: &[u32], i: TokenIndex) -> Token
    ensures { result ≡ read room.now i }
{
    let n = slots(room.len());
    if 0 < n {
        read_at(room, slot_of(i, n))
    } else {
        Token {
            kind: 0,
            start: Offset(0),
            end: Offset(0),
        }
    }
}

// The slot of a token, where there are some.
fn slot_of(i: TokenIndex, slots: usize) -> Slot
    requires { 0 < slots }
    ensures { result ≡ slot_of i slots }
{
    Slot((i.0 as usize) % slots)
}

// Writes a token into a slot.
fn write_at(room: &mut [u32], at: Slot, token: Token)
    requires { at.0 * width + width ≤ length room.old }
    ensures { room.new ≡ write_at room.old at token }
{
    let k = at.0 * WIDTH;
    room[k] = token.kind;
    room[k + 1] = token.start.0;
    room[k + 2] = token.end.0;
}

// The token that a slot holds.
fn read_at(room: &[u32], at: Slot) -> Token
    requires { at.0 * width + width ≤ length room.now }
    ensures { result ≡ read_at room.now at }
{
    let k = at.0 * WIDTH;
    Token {
        kind: room[k],
        start: Offset(room[k + 1]),
        end: Offset(room[k + 2]),
    }
}
