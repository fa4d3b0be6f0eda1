// The numbers of a record.
ghost use Rattle.std.specs.Prelude.{◌≤◌, length, IfOk};

use std::alloc::{AllocError, Global};

// The most numbers that are read in one go: those of 1,024 answers, or of the tokens of every recorded source.
const MOST_NUMBERS: usize = 4096;

// Numbers that were read, and the place behind them.
#[derive(Drop)]
pub(crate) struct Numbers {
    pub(crate) all: Vec<u32>,
    pub(crate) end: usize,
}

// Reads the numbers at the place, each behind a space: no more than the most.
pub(crate) fn read(alloc: Global, line: &[u8], from: usize) -> Result<Numbers, AllocError>
    ensures { IfOk result (λ numbers. length numbers.all.items ≤ 4096) }
{
    let mut all = Vec::new(alloc);
    let mut end = from;
    for _ in 0..MOST_NUMBERS {
        let Some(number) = lines::number_behind(line, end) else {
            break;
        };
        all.push(lines::narrow(number.value))?;
        end = number.end;
    }
    Ok(Numbers { all, end })
}
