// The C functions, a module each, on numbers and slices: C and Rust can call them. Here is what they share: the number of an answer.
#![tactic(auto)]

ghost use Rattle.std.specs.Prelude.{◌≡◌};
ghost use Rattle.c_functions.specs.Answers.{status_of};

mod c_events;
mod c_listing;
mod c_tokens;
mod c_window;

pub use c_events::rattle_events;
pub use c_listing::rattle_listing;
pub use c_tokens::rattle_tokens;
pub use c_window::rattle_window;
use refusals::Refusal;

// The number of an answer: 0 where it is done, else that of the refusal. The crate statuses has it for the unfinished calls; to lean on
// that crate for one match is no plainer.
fn status(answer: Result<(), Refusal>) -> u32
    ensures { result ≡ status_of answer }
{
    match answer {
        Ok(()) => 0,
        Err(refusal) => u32::from(refusal),
    }
}
