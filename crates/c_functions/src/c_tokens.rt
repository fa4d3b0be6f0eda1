// The C function that lists a source's tokens: numbers and slices, so that C and Rust can call it.
ghost use Rattle.std.specs.Prelude.{◌≤◌, ◌≡◌, length};
ghost use Rattle.refusals.specs.Calls.{reply};
ghost use Rattle.reader.specs.Reading.{source_limit};
ghost use Rattle.c_functions.specs.Answers.{lent};
ghost use Rattle.c_functions.specs.TokensAt.{tokens_from, tokens_at};

use reader::Reader;
use refusals::Refusal;
use tokens::{Mode, Offset, TokenIndex};

// The tokens of a source from a place on, in a mode: 0 normal, 1 pattern, 2 jump. Kind, start and end of each are written to `out`, and how
// many they are to `count`. Answers 0; or 1 where the source is over the limit, then 24 where the number is no mode's or the place past
// the source, then 15 where `out` is too short, and changes nothing that is lent.
pub fn rattle_tokens(src: &[u8], place: u32, mode: u32, out: &mut [u32], count: &mut u32) -> u32
    ensures { reply result (lent out.new count.new) ≡ tokens_at src.now place mode out.old count.old }
{
    if reader::SOURCE_LIMIT < src.len() {
        return u32::from(Refusal::SourceTooLong);
    }
    match Mode::try_from(mode) {
        Ok(mode) => in_mode(src, place, mode, out, count),
        Err(_) => u32::from(Refusal::NotAsOpened),
    }
}

// The same of a source within the limit, in a mode.
fn in_mode(src: &[u8], place: u32, mode: Mode, out: &mut [u32], count: &mut u32) -> u32
    requires { length src.now ≤ source_limit }
    ensures { reply result (lent out.new count.new) ≡ tokens_from src.now place mode out.old count.old }
{
    if src.len() < place as usize {
        return u32::from(Refusal::NotAsOpened);
    }
    let reader = Reader {
        place: Offset(place),
        mode,
    };
    let slots = token_room::slots(out.len());
    match fetching::fetch(src, reader, out, TokenIndex(0), src.len(), slots) {
        Ok(stored) => {
            *count = stored.next.0;
            0
        }
        Err(_) => u32::from(Refusal::NoRoom),
    }
}
