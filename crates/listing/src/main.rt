// Lists the tokens of standard input as document 01 has it: the source is read in normal mode, and an over-long one is refused.
#![tactic(auto)]

use std::alloc::Global;
use std::io;
use std::io::Read;

// Room for the longest listing: its first line has at most 13 bytes, and each of at most 65,535 tokens at most 15.
const ROOM: usize = 983_038;

// Writes the listing of a source, or `refused` and the number of the refusal.
fn write_listing(rt: &impl Print, alloc: Global, src: &[u8]) -> io::Result<()> {
    let mut room = vec![in alloc; 0; ROOM]?;
    let text = room.as_mut_slice();
    match listing_text::list(src, text) {
        Ok(len) => rt.write_all(&text[..len]),
        Err(refusal) => println!(rt; "refused {refusal}"),
    }
}

// One byte more is read than a source may have, so that a source that goes on is over-long whatever follows.
fn main(rt: HostRuntime) -> io::Result<()> {
    let alloc = rt.alloc();
    let mut src = Vec::new(alloc);
    match rt.reader().take(65536).read_to_end(&mut src) {
        Ok(_) => write_listing(&rt, alloc, &src),
        Err(_) => eprintln!(rt; "listing: standard input cannot be read"),
    }
}
