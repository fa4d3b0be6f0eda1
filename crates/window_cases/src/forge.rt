// The lines that set a field of the window's record.
use lines::Asked;
use tokens::{Offset, TokenIndex};
use window::Window;

// The record with a field set, by the line's first letter; as it is where none has that letter.
pub(crate) fn set(window: Window, asked: Asked) -> Window {
    let n = lines::narrow(asked.first);
    let mut forged = window;
    match asked.letter {
        b'F' => forged.fetched = TokenIndex(n),
        b'C' => forged.current = TokenIndex(n),
        b'L' => forged.live = n,
        b'B' => forged.bytes = n,
        b'W' => forged.slots = n as usize,
        b'P' => forged.reader.place = Offset(n),
        b'M' => {
            if let Some(mark) = forged.bookmarks.get_mut(n as usize) {
                *mark = TokenIndex(lines::narrow(asked.second));
            }
        }
        _ => {}
    }
    forged
}
