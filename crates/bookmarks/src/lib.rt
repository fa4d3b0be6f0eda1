// The bookmarks: an array of 64 token indexes, of which the first `live` are in use, in order, and the others 0; and the tests of it.
#![tactic(auto)]

ghost use Rattle.std.specs.Prelude.{◌≡◌, length};
ghost use Rattle.bookmarks.specs.Bookmarks.{in_order, unused, held, low_of};

mod inserting;
mod removing;

pub use inserting::insert;
pub use removing::{has, remove};
use tokens::TokenIndex;

// How many bookmarks there can be.
pub const BOOKMARKS: usize = 64;

// The places of the bookmarks. The array and the count beside it are document 01's form of the window.
pub type Bookmarks = [TokenIndex; BOOKMARKS];

// Whether the live ones are in order, none of them above `top`, and the other places 0.
pub fn is_sound(bookmarks: &Bookmarks, live: u32, top: TokenIndex) -> bool
    ensures { result ≡ held live top.0 bookmarks.now }
{
    let n = live as usize;
    if BOOKMARKS < n {
        return false;
    }
    let (marks, others) = bookmarks.split_at(n);
    is_in_order(marks, top) && is_unused(others)
}

// Whether the marks are in order and at most `top`. Here and below the loop has no branch, so that it can be vectorised: every call of
// a window runs it. Marks are compared by the numbers in them, as the definitions do it.
fn is_in_order(marks: &[TokenIndex], top: TokenIndex) -> bool
    ensures { result ≡ in_order 0 top.0 marks.now }
{
    let mut ordered = true;
    let mut low = 0;
    for mark in marks {
        ordered &= low <= mark.0;
        low = mark.0;
    }
    ordered & (low <= top.0)
}

// Whether all places are 0.
fn is_unused(places: &[TokenIndex]) -> bool
    ensures { result ≡ unused places.now }
{
    let mut zero = true;
    for place in places {
        zero &= place.0 == 0;
    }
    zero
}

// The smaller of an index and the first live bookmark, if there is one.
#[tactic(auto, using(crate::specs::TestLaws::low_none, crate::specs::TestLaws::low_smaller))]
pub fn low(first: TokenIndex, live: u32, current: TokenIndex) -> TokenIndex
    ensures { result ≡ low_of live first current }
{
    if live == 0 {
        return current;
    }
    TokenIndex(first.0.min(current.0))
}
