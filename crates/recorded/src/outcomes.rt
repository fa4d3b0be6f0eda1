// How the records were answered, counted and said.
use std::{fmt, io};

// How a record was answered: how many calls it has, how many answers came before a refusal 2 in the small rooms, and whether all are right.
// The two counts are counted of a record that differs, too.
#[derive(Clone, Copy)]
pub(crate) struct Outcome {
    pub(crate) calls: usize,
    pub(crate) small: usize,
    pub(crate) right: bool,
}

impl Outcome {
    // The outcome of a record that has no calls, as a source has none; not right, of what is no record.
    pub(crate) fn without_calls(right: bool) -> Outcome {
        Outcome {
            calls: 0,
            small: 0,
            right,
        }
    }
}

// How many records were replayed, how many calls they had and answers in small rooms, and how many records differ.
#[derive(Clone, Copy, Default)]
pub(crate) struct Tally {
    records: usize,
    calls: usize,
    small: usize,
    differ: usize,
}

impl Tally {
    // Counts a record more, and names its line where it differs.
    pub(crate) fn count(&mut self, rt: &impl Print, one: Outcome) -> io::Result<()> {
        self.records = self.records.wrapping_add(1);
        self.calls = self.calls.wrapping_add(one.calls);
        self.small = self.small.wrapping_add(one.small);
        if !one.right {
            self.differ = self.differ.wrapping_add(1);
            println!(rt; "line {} differs", self.records)?;
        }
        Ok(())
    }
}

impl fmt::Display for Tally {
    // The last lines.
    fn fmt<W: fmt::Write>(&self, f: &mut fmt::Formatter<W>) -> fmt::Result {
        let Tally {
            records,
            calls,
            small,
            differ,
        } = *self;
        writeln!(f, "{small} answers with 0 to 8 slots before refusal 2")?;
        write!(f, "{records} records, {calls} calls, {differ} differ")
    }
}
