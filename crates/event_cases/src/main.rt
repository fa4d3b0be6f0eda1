// Runs cases of the event stream: document 01's, a ring that turns many times, and recorded calls of the Rust. The file stdin has the
// cases, a line for each call; the file stdout has the answers, a line for each.
//
// A line is a call in the words of the Rust's driver: open, token K S E, error M S E, begin K, end, end_error, bookmark, truncate P,
// remove P, pop, drain (which pops all). It is answered as there: open, ok, bookmark P, an event as its tag, kind or message, start and
// end, none; `refused N` is a refusal, after which the stream must be as it was. Empty lines and those that start with `--` are said as
// they are. `lend N D` lends N numbers for event slots and D open places, each 7, or as many as there are; `view` says the stream and
// both rooms. A capital letter sets a field of the stream's record: E, D, Front, Count, Opened, Bookmarks, Last S E, Gone S E, Popped; or
// a number of the rooms: Room I N, Inner I N.
#![tactic(auto)]

mod bench;
mod calls;
mod forge;
mod say;

use bench::Bench;
use lines::Lines;
use std::io;
use std::io::Read;

// Runs each line of the cases, of which at most 600,000 bytes are read.
fn main(rt: HostRuntime) -> io::Result<()> {
    let mut text = Vec::new(rt.alloc());
    rt.reader().take(600000).read_to_end(&mut text)?;
    let mut bench = Bench::new(rt.alloc());
    for line in Lines(&text) {
        bench.step(&rt, line)?;
        println!(rt)?;
    }
    Ok(())
}
