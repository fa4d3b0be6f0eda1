// The calls, each with so much lent as its line says; each number lent is 7 before, or 8 for answers, or 5 beside room; each byte is a dot.
// A line that asks for more than there is to lend makes no call.
use crate::say;
use lines::{Asked, Spaced};
use std::io;

// The tokens, in the numbers that are lent.
fn tokens(rt: &impl Print, asked: Asked, src: &[u8]) -> io::Result<()> {
    let place = lines::narrow(asked.first);
    let mode = lines::narrow(asked.second);
    let mut numbers = [7; 16];
    let mut count = 5;
    let Some(out) = numbers.get_mut(..asked.third) else {
        return Ok(());
    };
    let status = c_functions::rattle_tokens(src, place, mode, out, &mut count);
    say::answer(rt, status)?;
    print!(rt; " {count}")?;
    print!(rt; "\nlent{}", Spaced(out))
}

// The listing, in the first bytes of those that are there to lend.
fn listing(rt: &impl Print, n: usize, src: &[u8], bytes: &mut [u8]) -> io::Result<()> {
    let mut len = 5;
    let Some(out) = bytes.get_mut(..n) else {
        return Ok(());
    };
    let status = c_functions::rattle_listing(src, out, &mut len);
    say::answer(rt, status)?;
    println!(rt; " {len}")?;
    say::end(rt, out)
}

// The listing of a source of the most bytes, each of them a token; there is just room for it.
fn most(rt: &(impl Print + AllocGlobal), n: usize) -> io::Result<()> {
    let mut room = vec![in rt.alloc(); b'.'; 960822]?;
    listing(rt, n, &[b':'; 65535], &mut room)
}

// A script on a window, in the first numbers of its room and for the answers.
fn window(rt: &impl Print, asked: Asked, src: &[u8], script: &[u32]) -> io::Result<()> {
    let mut slots = [7; 16];
    let mut numbers = [8; 64];
    let (Some(room), Some(answers)) = (
        slots.get_mut(..asked.first),
        numbers.get_mut(..asked.second),
    ) else {
        return Ok(());
    };
    let status = c_functions::rattle_window(src, script, room, answers);
    say::answer(rt, status)?;
    print!(rt; "\nlent{}", Spaced(room))?;
    print!(rt; "\nlent{}", Spaced(answers))
}

// A script on an event stream, in the first numbers of both rooms and for the answers.
fn events(rt: &impl Print, asked: Asked, script: &[u32]) -> io::Result<()> {
    let mut slots = [7; 32];
    let mut places = [7; 4];
    let mut numbers = [8; 128];
    let (Some(room), Some(opens), Some(answers)) = (
        slots.get_mut(..asked.first),
        places.get_mut(..asked.second),
        numbers.get_mut(..asked.third),
    ) else {
        return Ok(());
    };
    let status = c_functions::rattle_events(script, room, opens, answers);
    say::answer(rt, status)?;
    print!(rt; "\nlent{}", Spaced(room))?;
    print!(rt; "\nlent{}", Spaced(opens))?;
    print!(rt; "\nlent{}", Spaced(answers))
}

// The call that a line asks for, by its first letter; none for another letter.
pub(crate) fn make(
    rt: &(impl Print + AllocGlobal),
    asked: Asked,
    src: &[u8],
    script: &[u32],
) -> io::Result<()> {
    match asked.letter {
        b'T' => tokens(rt, asked, src),
        b'L' => listing(rt, asked.first, src, &mut [b'.'; 32]),
        b'M' => most(rt, asked.first),
        b'W' => window(rt, asked, src, script),
        b'E' => events(rt, asked, script),
        _ => Ok(()),
    }
}
