// A bookmark found among the live ones, and one less of them.
ghost use Rattle.std.specs.Prelude.{◌≡◌, take, position, eqb};
ghost use Rattle.token_record.specs.Record.{member};
ghost use Rattle.bookmarks.specs.Bookmarks.{removed};

use crate::{BOOKMARKS, Bookmarks};
use tokens::TokenIndex;

// Whether a bookmark is live.
pub fn has(bookmarks: &Bookmarks, live: u32, mark: TokenIndex) -> bool
    ensures { result ≡ member mark (take live bookmarks.now) }
{
    find(bookmarks, live, mark).is_some()
}

// Takes out the first live bookmark that equals `mark`: those behind it move down, and the last place is 0. Without one, all stay.
pub fn remove(bookmarks: &mut Bookmarks, live: u32, mark: TokenIndex)
    ensures { bookmarks.new ≡ removed live mark bookmarks.old }
{
    if let Some(at) = find(bookmarks, live, mark) {
        bookmarks.copy_within(at + 1.., at);
        bookmarks[BOOKMARKS - 1] = TokenIndex(0);
    }
}

// The place of the first live bookmark that equals `mark`.
fn find(bookmarks: &Bookmarks, live: u32, mark: TokenIndex) -> Option<usize>
    ensures { result ≡ position (λ other. eqb other.0 mark.0) (take live bookmarks.now) }
{
    bookmarks
        .iter()
        .take(live as usize)
        .position(|other| *other == mark)
}
