// One more bookmark among the live ones, which stay in order.
ghost use Rattle.std.specs.Prelude.{◌≤◌, ◌≡◌, length};
ghost use Rattle.bookmarks.specs.Bookmarks.{inserted};
ghost use Rattle.bookmarks.specs.Inserting.{place_of};

use crate::{BOOKMARKS, Bookmarks};
use tokens::TokenIndex;

// One more among the live ones, in order; the bookmarks stay as they are where all places are in use.
pub fn insert(bookmarks: &mut Bookmarks, live: u32, mark: TokenIndex)
    ensures { bookmarks.new ≡ inserted live mark bookmarks.old }
{
    let n = live as usize;
    if n < BOOKMARKS {
        let at = place(&bookmarks[..n], mark);
        bookmarks.copy_within(at..n, at + 1);
        bookmarks[at] = mark;
    }
}

// The place of the first bookmark that is above `mark`, or their number.
fn place(live: &[TokenIndex], mark: TokenIndex) -> usize
    ensures place { result ≡ place_of mark live.now }
    ensures within { result ≤ length live.now }
{
    live.iter()
        .position(|other| mark < *other)
        .unwrap_or(live.len())
}
