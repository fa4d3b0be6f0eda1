// A text by its lines.
ghost use Rattle.std.specs.Iterator.{YieldsFirstRef, item_count};
ghost use Rattle.lines.specs.Split.{lines_of};

use crate::{behind, next_byte};

// The lines of a text, each without the LF at its end; the text behind the last LF is a line only where there is any.
#[derive(Clone, Copy, Drop)]
pub struct Lines<'t>(pub &'t [u8]);

impl<'t> Iterator for Lines<'t> {
    type Item = &'t [u8];

    ghost next_gives = { YieldsFirstRef (λ s. lines_of s.0.now) };

    ghost remaining = { item_count (λ s. lines_of s.0.now) };

    // The next line.
    fn next(&mut self) -> Option<&'t [u8]> {
        let text = self.0;
        if text.is_empty() {
            return None;
        }
        let end = next_byte(text, 0, b'\n');
        self.0 = behind(text, end + 1);
        Some(&text[..end])
    }
}
