// Calls each C function at its borders, as a C program would. The file stdin has the cases, a line each; the file stdout has the same
// lines, and below each what document 01 says: the answer, with the number that is lent beside room, and then all that is lent, in the
// order of the parameters.
//
// A case is `Tokens PLACE MODE NUMBERS`, `Listing BYTES`, `Window ROOM ANSWERS` or `Events ROOM PLACES ANSWERS`, with so much lent.
// Behind `;` stands the script, a space before each number; behind `|` the source. Without `|` it is of the most bytes, all of them
// spaces; with `+` of one more. `Most BYTES` lists the source of the most tokens; of the bytes that are lent for a listing the last 30
// are written.
#![tactic(auto)]

mod calls;
mod cases;
mod say;

use lines::Lines;
use std::io;
use std::io::Read;

// A source of one byte more than the most, which would be one token.
const SPACES: [u8; 65536] = [b' '; 65536];

// Says each line, and runs its case. Of the cases at most 10,000 bytes are read.
fn main(rt: HostRuntime) -> io::Result<()> {
    let mut text = Vec::new(rt.alloc());
    rt.reader().take(10000).read_to_end(&mut text)?;
    for line in Lines(&text) {
        cases::run(&rt, line, &SPACES)?;
    }
    Ok(())
}
