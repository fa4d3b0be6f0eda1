// The scanner: one token for each call, in three modes.
ghost use Rattle.std.specs.Prelude.{◌≡◌, MatchOption};
ghost use Rattle.reader.specs.Reading.{sound, scan_of, scan_told};
ghost use Rattle.reader.specs.Following.{Sound, Onward, Ends};

use crate::{Reader, SOURCE_LIMIT};
use refusals::Refusal;
use tokens::{Offset, Token};

impl Reader {
    // The token at the reader's place, and the reader moved to its end; none where the source is at its end.
    #[inline(always)]
    pub fn scan(self, src: &[u8]) -> Result<Option<(Token, Reader)>, Refusal>
        ensures { scan_told result ≡ scan_of src.now self }
    {
        if self.can_scan(src) {
            Ok(self.found(src))
        } else {
            Err(Refusal::NotAsOpened)
        }
    }

    // Whether the source is within the limit, and the reader's place within the source.
    pub(crate) fn can_scan(self, src: &[u8]) -> bool
        ensures { result ≡ sound src.now self }
    {
        src.len() <= SOURCE_LIMIT && self.place.0 as usize <= src.len()
    }

    // What a scan finds.
    #[inline(always)]
    pub(crate) fn found(self, src: &[u8]) -> Option<(Token, Reader)>
        requires { Sound src.now self }
        ensures { MatchOption result (Ends src.now self) (λ p. Onward src.now self p.0 p.1) }
    {
        let at = self.place.0 as usize;
        if at == src.len() {
            return None;
        }
        let choice = rules::taken(self.mode, src, self.place);
        let end = Offset((at + choice.len) as u32);
        let token = Token {
            kind: choice.kind,
            start: self.place,
            end,
        };
        let moved = Reader {
            place: end,
            mode: choice.mode,
        };
        Some((token, moved))
    }
}
