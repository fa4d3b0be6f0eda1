// Replays recorded answers of the Rust, and counts the records on which the port answers otherwise: sources through its tokenizer
// (tokenizer.rt), and sequences of calls of its window (sequences.rt).
//
// A record is a line: a source in hexadecimal, and numbers, each behind a space; include/rattle.h says what they mean. A line that is no
// record counts as one that differs.
#![tactic(auto)]

mod outcomes;
mod record;
mod sequences;
mod tokenizer;

use outcomes::{Outcome, Tally};
use std::alloc::{AllocError, Global};
use std::io;
use std::io::Read;

// The most bytes that the source of a record has.
const MOST_BYTES: usize = 4096;

// Replays the record of a line: of calls where `;` stands behind its first numbers. A last line with no LF was cut off, and is none.
fn replay(alloc: Global, line: &[u8]) -> Result<Outcome, AllocError> {
    let mut src = vec![in alloc; 0; MOST_BYTES]?;
    let source = lines::decode(line, 0, &mut src);
    src.truncate(source.len);
    let first = record::read(alloc, line, source.end)?;
    match line.get(first.end) {
        Some(b';') => sequences::replay(alloc, line, first.end + 1, &src, &first.all),
        Some(b'\n') => Ok(Outcome::without_calls(tokenizer::is_right(&src, &first.all))),
        _ => Ok(Outcome::without_calls(false)),
    }
}

// Replays each line of the text, names those that differ, and says the tally.
fn replay_lines(rt: &(impl Print + AllocGlobal), text: &[u8]) -> io::Result<()> {
    let mut tally = Tally::default();
    for line in text.split_inclusive(|byte| *byte == b'\n') {
        let outcome = replay(rt.alloc(), line)?;
        tally.count(rt, outcome)?;
    }
    println!(rt; "{tally}")
}

// Standard input is to have at most 600,000 bytes: one more is read, so that one that goes on is not taken for whole.
fn main(rt: HostRuntime) -> io::Result<()> {
    let mut text = Vec::new(rt.alloc());
    match rt.reader().take(600001).read_to_end(&mut text) {
        Ok(n) if n <= 600000 => replay_lines(&rt, &text),
        _ => eprintln!(rt; "recorded: standard input cannot be read whole"),
    }
}
