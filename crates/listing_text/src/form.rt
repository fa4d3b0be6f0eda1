// How many bytes the parts of a listing have.
ghost use Rattle.std.specs.Prelude.{◌+◌, ◌≤◌, ◌≡◌, length};
ghost use Rattle.listing_text.specs.Listing.{decimal, line, head};

use tokens::Token;

// From each of these on, a number has one digit more.
const TENS: [u32; 9] = [
    10,
    100,
    1_000,
    10_000,
    100_000,
    1_000_000,
    10_000_000,
    100_000_000,
    1_000_000_000,
];

// How many digits a number has: ten at most.
fn number_len(n: u32) -> usize
    ensures { (result ≡ length (decimal n)) × (result ≤ 10) }
{
    TENS.iter().take_while(|ten| **ten <= n).count() + 1
}

// How many bytes a number has with the byte behind it.
pub(crate) fn field_len(n: u32) -> usize
    ensures { (result ≡ length (decimal n) + 1) × (result ≤ 11) }
{
    number_len(n) + 1
}

// How many bytes a token's line has.
#[tactic(auto, using(crate::proofs::Numbers::length_line))]
pub(crate) fn line_len(token: Token) -> usize
    ensures { result ≡ length (line token) }
{
    field_len(token.kind) + field_len(token.start.0) + field_len(token.end.0)
}

// How many bytes the first line has.
#[tactic(auto, using(crate::proofs::Numbers::length_head))]
pub(crate) fn head_len(n: u32) -> usize
    ensures { (result ≡ length (head n)) × (result ≤ 18) }
{
    7 + field_len(n)
}
