// Fetching: the tokens from a reader on go into their slots of the lent room, unless they are too many.
#![tactic(auto)]

ghost use Rattle.std.specs.Prelude.{◌≤◌, ◌≡◌, length, leb};
ghost use Rattle.reader.specs.Reading.{ahead};
ghost use Rattle.token_room.specs.Room.{write_all};
ghost use Rattle.fetching.specs.Fetching.{outcome, fetched, stored};

use reader::{Reader, Tokens};
use refusals::Refusal;
use tokens::TokenIndex;

// Where fetching has come to: the reader behind the tokens, and the index that comes next.
#[derive(Clone, Copy, Debug, PartialEq, Eq)]
pub struct Stored {
    pub reader: Reader,
    pub next: TokenIndex,
}

// Fetches `need` tokens from the reader on, or all up to the end; the first of them has the index `first`. Where they are more than
// `spare`, none is fetched.
pub fn fetch(
    src: &[u8],
    reader: Reader,
    room: &mut [u32],
    first: TokenIndex,
    need: usize,
    spare: usize,
) -> Result<Stored, Refusal>
    ensures { outcome result room.new ≡ fetched src.now reader room.old first need spare }
{
    let tokens = reader.tokens(src)?;

    // a place and an index: counts of two kinds
    if reader.place.0 < first.0 {
        return Err(Refusal::NotAsOpened);
    }
    if !fits(tokens, need, spare) {
        return Err(Refusal::WindowFull);
    }
    Ok(store(tokens, room, first, need))
}

// Whether the tokens to fetch are at most `spare`. Only where more are asked for, and there are more bytes, is it looked up.
fn fits(mut tokens: Tokens, need: usize, spare: usize) -> bool
    ensures { result ≡ leb (length (ahead need tokens.entry.src.now tokens.entry.reader).tokens) spare }
{
    need <= spare
        || tokens.src.len() - tokens.reader.place.0 as usize <= spare
        || tokens.nth(spare).is_none()
}

// Writes the next `need` tokens, or all up to the end, into their slots.
fn store(tokens: Tokens, room: &mut [u32], first: TokenIndex, need: usize) -> Stored
    requires { first.0 ≤ tokens.reader.place.0 }
    ensures { let a = ahead need tokens.entry.src.now tokens.entry.reader in
        (result ≡ stored first a) × (room.new ≡ write_all room.old first.0 a.tokens) }
{
    let mut left = tokens;
    let mut next = first;
    for _ in 0..need {
        let Some(token) = left.advance() else { break };
        token_room::write(room, next, token);
        next.0 += 1;
    }
    Stored {
        reader: left.reader,
        next,
    }
}
