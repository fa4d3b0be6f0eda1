// A number of 64 bits as two of 32, the low one first.
#![tactic(auto)]

ghost use Rattle.std.specs.Prelude.{◌≡◌};
ghost use Rattle.halves.specs.Halves.{join, low_of, high_of};

// Two to the power 32.
const HALF: usize = 4294967296;

// Two numbers as one.
pub fn joined(low: u32, high: u32) -> usize
    ensures { result ≡ join low high }
{
    low as usize + high as usize * HALF
}

// The low one of the two.
pub fn low(number: usize) -> u32
    ensures { result ≡ low_of number }
{
    (number % HALF) as u32
}

// The high one.
pub fn high(number: usize) -> u32
    ensures { result ≡ high_of number }
{
    (number / HALF) as u32
}
