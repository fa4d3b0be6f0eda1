// The next token of a token source. `next_at` serves callers that hold the parts.
ghost use Rattle.std.specs.Prelude.{◌≡◌};
ghost use Rattle.reader.specs.Reading.{scan_of, scan_told};
ghost use Rattle.source.specs.Next.{next_of, next_reply};

use crate::Source;
use reader::Reader;
use refusals::{Given, Refusal};
use tokens::{Mode, Offset, Token};

impl<'a> Source<'a> {
    // The token at the source's place, and the source behind it; where there is none, the source as it was.
    pub fn next(self) -> Given<Option<Token>, Source<'a>>
        ensures { next_reply result ≡ next_of self.entry }
    {
        match self.reader().scan(self.src) {
            Ok(Some((token, moved))) => Given::done(Some(token), self.with(moved)),
            Ok(None) => Given::done(None, self),
            Err(refusal) => Given::refused(refusal, self),
        }
    }
}

// A source made of plain parts and asked for its next token, and the reader behind it.
pub fn next_at(src: &[u8], place: Offset, mode: Mode) -> Result<Option<(Token, Reader)>, Refusal>
    ensures { scan_told result ≡ scan_of src.now (record { place = place; mode = mode }) }
{
    let given = Source { src, place, mode }.next();
    match given.answer? {
        Some(token) => Ok(Some((token, given.after.reader()))),
        None => Ok(None),
    }
}
