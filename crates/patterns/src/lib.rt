// The pattern language is in specs/. It shares with the code what UTF-8 says of the front of a list of bytes.
#![tactic(auto)]

// One well-formed character: its scalar value, and its length in bytes.
#[derive(Clone, Copy, Debug, PartialEq, Eq)]
pub struct Char {
    pub value: u32,
    pub len: usize,
}

// What a first byte asks for: nothing more; or a second byte in low..high, then k bytes in 80..BF, with the value's bits so far.
#[derive(Clone, Copy, Debug, PartialEq, Eq)]
pub enum Lead {
    Alone,
    More {
        low: u8,
        high: u8,
        k: u32,
        bits: u32,
    },
    Bad,
}
