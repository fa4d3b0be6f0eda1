// Records of the Rust's window: two numbers for each call; `;`; and four numbers for each of the Rust's answers. Each is replayed by the
// C function `rattle_window`: with ample room, where every answer must be the Rust's; and with 0 to 8 slots, where every answer must be
// up to the first refusal 2.
use crate::outcomes::Outcome;
use crate::record;
use std::alloc::{AllocError, Global};

// 4,096 slots are ample room.
const AMPLE: usize = 4096;

// How many answers are the recorded ones, before the first that is not; and whether all are, or that one is refusal 2. No Option: where
// it is another, those before it are counted, too.
#[derive(Clone, Copy)]
struct InRoom {
    answers: usize,
    right: bool,
}

// Holds the answers against the recorded ones.
fn compared(recorded: &[u32], answers: &[u32]) -> InRoom {
    let same = recorded
        .chunks(4)
        .zip(answers.chunks(4))
        .take_while(|(one, other)| one == other)
        .count();
    let next = answers.chunks(4).nth(same);
    InRoom {
        answers: same,
        right: next.is_none_or(|answer| answer.starts_with(&[5, 2])),
    }
}

// Replays a sequence in a room of so many numbers; a script that is refused has no answer.
fn answered_in(
    alloc: Global,
    numbers: usize,
    src: &[u8],
    script: &[u32],
    recorded: &[u32],
) -> Result<InRoom, AllocError> {
    let mut room = vec![in alloc; 0; numbers]?;
    let mut answers = vec![in alloc; 0; recorded.len()]?;
    let status = c_functions::rattle_window(src, script, &mut room, &mut answers);
    if status != 0 {
        return Ok(InRoom {
            answers: 0,
            right: false,
        });
    }
    Ok(compared(recorded, &answers))
}

// Replays a sequence with ample room, and with 0 to 8 slots, of three numbers each.
fn answered(
    alloc: Global,
    src: &[u8],
    script: &[u32],
    recorded: &[u32],
) -> Result<Outcome, AllocError> {
    let calls = script.len() / 2;
    let ample = answered_in(alloc, AMPLE * 3, src, script, recorded)?;
    let mut all = Outcome {
        calls,
        small: 0,
        right: ample.answers == calls,
    };
    for slots in 0..=8 {
        let few = answered_in(alloc, slots * 3, src, script, recorded)?;
        all.small = all.small.wrapping_add(few.answers);
        all.right = all.right && few.right;
    }
    Ok(all)
}

// Whether so many numbers are a script, and so many its answers.
fn is_script(calls: usize, answers: usize) -> bool {
    answers % 4 == 0 && answers / 2 == calls
}

// Replays the calls on the source; the line has their answers at the place, and LF behind them.
pub(crate) fn replay(
    alloc: Global,
    line: &[u8],
    at: usize,
    src: &[u8],
    script: &[u32],
) -> Result<Outcome, AllocError> {
    let recorded = record::read(alloc, line, at)?;
    let whole = line.get(recorded.end) == Some(&b'\n');
    if whole && is_script(script.len(), recorded.all.len()) {
        return answered(alloc, src, script, &recorded.all);
    }
    Ok(Outcome::without_calls(false))
}
