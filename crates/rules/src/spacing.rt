// Blanks and newlines, which every mode has.
ghost use Rattle.std.specs.Prelude.{◌≡◌, drop};
ghost use Rattle.tokens.specs.Scan.{best};
ghost use Rattle.places.specs.Signs.{matched};
ghost use Rattle.rules.specs.First as first;
ghost use Rattle.rules.specs.Families.{spacing_rules};

use crate::hits;
use tokens::Hit;

// Whether blanks or a newline can start with a byte.
pub(crate) fn is_spacing(b: u8) -> bool
    ensures { result ≡ first.spacing b }
{
    (b == b' ') | (b == b'\n') | (b == b'\r') | (b == b'\t') | (0x80 <= b)
}

// The blanks or the newline at a place.
pub(crate) fn spacing(src: &[u8], at: usize) -> Option<Hit>
    ensures { result ≡ matched (best spacing_rules (drop at src.now)) }
{
    let blanks = hits::one(tokens::WHITESPACE, at, spaces::blanks(src, at));
    hits::longer(blanks, operators::newline(src, at))
}
