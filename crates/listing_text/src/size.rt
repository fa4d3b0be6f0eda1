// How many bytes the listing of a source has, and whether it has room. Nothing is written here.
ghost use Rattle.std.specs.Prelude.{◌≡◌, length, leb, MatchResult};
ghost use Rattle.refusals.specs.Refusals.{number_of};
ghost use Rattle.reader.specs.Reading.{ready, refused};
ghost use Rattle.reader.specs.Following.{rest};
ghost use Rattle.listing_text.specs.Listing.{text};
ghost use Rattle.listing_text.specs.Fitting.{fitting};

use crate::form::{head_len, line_len};
use reader::{Reader, Tokens};
use refusals::Refusal;

// The tokens of a source for a listing of at most `room` bytes: refused too where the listing is longer.
pub(crate) fn open_fitting(src: &[u8], room: usize) -> Result<Tokens<'_>, Refusal>
    ensures { MatchResult result
        (λ t. (t.src ≡ src.entry) × (ready t.reader ≡ fitting src.entry.now room))
        (λ e. refused (number_of e) ≡ fitting src.entry.now room) }
{
    let tokens = Reader::open(src)?.tokens(src)?;
    if fits(tokens, room) {
        Ok(tokens)
    } else {
        Err(Refusal::NoRoom)
    }
}

// Whether `room` bytes are enough. The first line has at most 13 bytes, and each token's at most 15; only less is measured.
fn fits(tokens: Tokens<'_>, room: usize) -> bool
    ensures { result ≡ leb (length (text (rest tokens.entry.src.now tokens.entry.reader))) room }
{
    room >= 13 + 15 * tokens.src.len() || measure(tokens) <= room
}

// How many bytes the listing of tokens has.
fn measure(tokens: Tokens<'_>) -> usize
    ensures { result ≡ length (text (rest tokens.entry.src.now tokens.entry.reader)) }
{
    let mut count = 0;
    let mut bytes = 0;
    for token in tokens {
        count += 1;
        bytes += line_len(token);
    }
    head_len(count) + bytes
}
