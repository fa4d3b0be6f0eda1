// A token source: it keeps the rule bytes that it was opened on, a place in them and a mode. Thin calls: each hands on the reader that the
// source is. The next token stands in `reading`.
#![tactic(auto)]

ghost use Rattle.std.specs.Prelude.{◌≡◌};
ghost use Rattle.tokens.specs.declared.Mode.TheVariants.{HexPattern, HexJump};
ghost use Rattle.source.specs.Sources.{reader_of, source_at, opened_on, switched, open_reply};

mod reading;

use reader::Reader;
pub use reading::next_at;
use refusals::Given;
use tokens::{Mode, Offset};

// The bytes, where scanning goes on in them, and in which mode. Three named fields, as document 01 says, and no reader in their stead.
#[derive(Clone, Copy)]
pub struct Source<'a> {
    pub src: &'a [u8],
    pub place: Offset,
    pub mode: Mode,
}

impl<'a> Source<'a> {
    // A source at the start of its bytes, in normal mode. One whose opening was refused is refused by each later scan.
    pub fn open(src: &'a [u8]) -> Given<(), Source<'a>>
        ensures { open_reply result ≡ opened_on src.entry }
    {
        let start = Source {
            src,
            place: Offset(0),
            mode: Mode::Normal,
        };
        match Reader::open(src) {
            Ok(_) => Given::done((), start),
            Err(refusal) => Given::refused(refusal, start),
        }
    }

    // Switches to the pattern mode, where the source is.
    pub fn enter_hex_pattern_mode(self) -> Source<'a>
        ensures { result ≡ switched HexPattern self.entry }
    {
        self.with(self.reader().enter_hex_pattern_mode())
    }

    // Switches to the jump mode, where the source is.
    pub fn enter_hex_jump_mode(self) -> Source<'a>
        ensures { result ≡ switched HexJump self.entry }
    {
        self.with(self.reader().enter_hex_jump_mode())
    }

    // The reader that the source is.
    fn reader(self) -> Reader
        ensures { result ≡ reader_of self.entry }
    {
        Reader {
            place: self.place,
            mode: self.mode,
        }
    }

    // The source's bytes, with another reader.
    fn with(self, reader: Reader) -> Source<'a>
        ensures { result ≡ source_at self.entry.src reader }
    {
        Source {
            src: self.src,
            place: reader.place,
            mode: reader.mode,
        }
    }
}
