// The tokens from a reader on, one after the other.
ghost use Rattle.std.specs.Prelude.{◌≡◌, true, false, MatchOption, MatchResult};
ghost use Rattle.std.specs.Iterator.{YieldsFirst, item_count};
ghost use Rattle.refusals.specs.declared.Refusal.TheVariants.{NotAsOpened};
ghost use Rattle.reader.specs.Reading.{sound, scan_of, advanced};
ghost use Rattle.reader.specs.Following.{Sound, Onward, Ends, rest};

use crate::Reader;
use refusals::Refusal;
use tokens::Token;

// The tokens that are left of a source from a reader on. The reader is always one that can scan the source.
#[derive(Clone, Copy)]
pub struct Tokens<'a> {
    pub src: &'a [u8],
    pub reader: Reader,
    ghost sound: { Sound src.now reader },
}

impl Reader {
    // The tokens from the reader on; refused where it cannot scan the source.
    pub fn tokens<'a>(self, src: &'a [u8]) -> Result<Tokens<'a>, Refusal>
        ensures { MatchResult result
            (λ t. (sound src.entry.now self ≡ true) × (t.src ≡ src.entry) × (t.reader ≡ self))
            (λ e. (sound src.entry.now self ≡ false) × (e ≡ NotAsOpened)) }
    {
        if self.can_scan(src) {
            Ok(Tokens { src, reader: self })
        } else {
            Err(Refusal::NotAsOpened)
        }
    }
}

impl<'a> Tokens<'a> {
    // The next token, which is what a scan of the source finds, and none at its end. (`next` gives the same, but does not say where the
    // reader then is.)
    #[inline(always)]
    pub fn advance(&mut self) -> Option<Token>
        ensures { (self.new.src ≡ self.old.src)
            × (advanced result self.new.reader ≡ scan_of self.old.src.now self.old.reader)
            × MatchOption result
            (Ends self.old.src.now self.old.reader × (self.new.reader ≡ self.old.reader))
            (λ x. Onward self.old.src.now self.old.reader x self.new.reader) }
    {
        // its reader can scan, so a scan is not refused
        let Ok(Some((token, moved))) = self.reader.scan(self.src) else {
            return None;
        };
        self.reader = moved;
        Some(token)
    }
}

impl<'a> Iterator for Tokens<'a> {
    type Item = Token;

    ghost next_gives = { YieldsFirst (λ s. rest s.src.now s.reader) };

    ghost remaining = { item_count (λ s. rest s.src.now s.reader) };

    #[inline(always)]
    fn next(&mut self) -> Option<Token> {
        self.advance()
    }
}
