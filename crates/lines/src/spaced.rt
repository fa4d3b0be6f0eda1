// Numbers as the programs write them.
use std::fmt;

// Numbers, each written behind a space.
#[derive(Clone, Copy)]
pub struct Spaced<'n, T>(pub &'n [T]);

impl<'n, T: fmt::Display> fmt::Display for Spaced<'n, T> {
    fn fmt<W: fmt::Write>(&self, f: &mut fmt::Formatter<W>) -> fmt::Result {
        for number in self.0 {
            write!(f, " {number}")?;
        }
        Ok(())
    }
}
