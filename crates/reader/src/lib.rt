// The reader: where scanning goes on in a source, and in which mode. Opening gives one, a switch moves it to another mode, and a scan
// (`scanning`) behind a token.
#![tactic(auto)]

ghost use Rattle.std.specs.Prelude.{◌≡◌};
ghost use Rattle.tokens.specs.declared.Mode.TheVariants.{HexPattern, HexJump};
ghost use Rattle.reader.specs.Reading.{open_of, opened_told, entered};

mod remaining;
mod scanning;

use refusals::Refusal;
pub use remaining::Tokens;
use tokens::{Mode, Offset};

// The most bytes that a source may have.
pub const SOURCE_LIMIT: usize = 65535;

// Where scanning goes on, and in which mode.
#[derive(Clone, Copy, Debug, PartialEq, Eq)]
pub struct Reader {
    pub place: Offset,
    pub mode: Mode,
}

impl Reader {
    // A reader at the start of a source, in normal mode.
    pub fn open(src: &[u8]) -> Result<Reader, Refusal>
        ensures { opened_told result ≡ open_of src.now }
    {
        if SOURCE_LIMIT < src.len() {
            return Err(Refusal::SourceTooLong);
        }
        Ok(Reader {
            place: Offset(0),
            mode: Mode::Normal,
        })
    }

    // Switches to the pattern mode, where the reader is.
    pub fn enter_hex_pattern_mode(self) -> Reader
        ensures { result ≡ entered HexPattern self }
    {
        self.in_mode(Mode::HexPattern)
    }

    // Switches to the jump mode, where the reader is.
    pub fn enter_hex_jump_mode(self) -> Reader
        ensures { result ≡ entered HexJump self }
    {
        self.in_mode(Mode::HexJump)
    }

    // The reader where it is, in another mode.
    fn in_mode(self, mode: Mode) -> Reader
        ensures { result ≡ entered mode self }
    {
        let place = self.place;
        Reader { place, mode }
    }
}
