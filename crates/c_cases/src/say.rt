// What is written to standard output.
use std::io;

// The last 30 bytes, which of the longest listing are two lines; all where there are no more.
pub(crate) fn end(rt: &impl Print, bytes: &[u8]) -> io::Result<()> {
    rt.write_all(&bytes[bytes.len().saturating_sub(30)..])
}

// What a function answers.
pub(crate) fn answer(rt: &impl Print, status: u32) -> io::Result<()> {
    print!(rt; "\nanswer {status}")
}
