// A line taken apart into what it asks for, its script and its source.
use crate::calls;
use std::alloc::{AllocError, Global};
use std::io;

// The most numbers that a script has; those behind are no part of it.
const MOST_NUMBERS: usize = 128;

// What stands before the first such byte, and what stands behind it; nothing where there is none.
fn parted(text: &[u8], byte: u8) -> Option<(&[u8], &[u8])> {
    let (before, behind) = text.split_at_checked(lines::next_byte(text, 0, byte))?;
    Some((before, behind.get(1..)?))
}

// The script of a line: behind `;`, the number behind each space, 0 where none stands there.
fn script(alloc: Global, line: &[u8]) -> Result<Vec<u32>, AllocError> {
    let Some((_, behind)) = parted(line, b';') else {
        return Ok(Vec::new(alloc));
    };
    behind
        .iter()
        .enumerate()
        .filter(|(_, byte)| **byte == b' ')
        .take(MOST_NUMBERS)
        .map(|(at, _)| lines::narrow(lines::number_behind(behind, at).map_or(
            0,
            |number| number.value,
        )))
        .collect(alloc)
}

// Says a line, and runs its case: on the source behind `|`, or on a long one.
pub(crate) fn run(rt: &(impl Print + AllocGlobal), line: &[u8], far: &[u8]) -> io::Result<()> {
    rt.write_all(line)?;
    let (case, src) = match parted(line, b'|') {
        Some(parts) => parts,
        None if line.contains(&b'+') => (line, far),
        None => (line, far.get(1..).unwrap_or(far)),
    };
    let script = script(rt.alloc(), case)?;
    calls::make(rt, lines::ask(case), src, &script)?;
    println!(rt)
}
