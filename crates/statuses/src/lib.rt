// A call's status, by which the C functions tell what it answers: 0 where it is done, or has found what was asked for; 100 where there is
// none; else the number of the refusal.
#![tactic(auto)]

ghost use Rattle.std.specs.Prelude.{◌≡◌};
ghost use Rattle.statuses.specs.Statuses.{status_of, done_outcome};

use refusals::Refusal;

// The status of a call that finds none.
pub const NONE: u32 = 100;

// The status of an answer that gives nothing else.
pub fn status(answer: Result<(), Refusal>) -> u32
    ensures { result ≡ status_of (done_outcome answer) }
{
    match answer {
        Ok(()) => 0,
        Err(refusal) => u32::from(refusal),
    }
}
