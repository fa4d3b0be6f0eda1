// Runs document 01's cases on the window: those marked, and the refusals clause by clause. The file stdin has the cases, a line for
// each step; the file stdout has them again, each with what document 01 says.
//
// A line is known by its first letter. The calls: next, peek N, more, bookmark, restore N, drop N (remove), index, hex (to pattern
// mode), jump. Each says its answer, and where the window given back is the one handed in. `source TEXT` sets the source, `far A N` takes
// N bytes from A on of 65,536 spaces and the bytes FF 41 E3 80 80; `give N` lends N numbers, each 7; `open` opens a window; `view` says the
// window, its mode by number (normal 0, pattern 1, jump 2), and the room. A capital letter sets a field of the window's record: Bytes, W,
// Fetched, Current, Place, Live, and Mark I N, the place I of the bookmarks. `#` is a title.
#![tactic(auto)]

mod bench;
mod calls;
mod forge;
mod say;

use bench::Bench;
use lines::Lines;
use std::io;
use std::io::Read;

// How many bytes the cases and those that no line has are together.
const ALL: usize = 85541;

// The last of the bytes that no line has; spaces stand before them.
const LAST: [u8; 5] = [255, 65, 227, 128, 128];

// Runs each line of the cases. Bytes are taken from the cases with those behind them that no line has, which a last line with no LF runs
// on into.
fn main(rt: HostRuntime) -> io::Result<()> {
    let mut cases = Vec::new(rt.alloc());
    rt.reader().take(ALL as u64).read_to_end(&mut cases)?;
    let mut text = cases.clone()?;
    for at in text.len()..ALL {
        text.push(if at < ALL - 5 {
            b' '
        } else {
            LAST[at - (ALL - 5)]
        })?;
    }
    let mut bench = Bench::new(&text);
    let mut left = cases.len();
    for line in Lines(&text) {
        if left == 0 {
            break;
        }
        left = left.saturating_sub(line.len() + 1);
        rt.write_all(line)?;
        bench.step(&rt, line)?;
        println!(rt)?;
    }
    Ok(())
}
