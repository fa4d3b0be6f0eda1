// The event stream's calls on a stream whose record is lent: each updates that record itself. Thin: the method of the same name does the
// work on a copy of the record, and what it gives is stored, refused or not. All nine are proved by one walk of the code (proofs/Thin).
// So none ends in `left_in`: the theorems `walk` and `meets` speak of the code as it stands, statement by statement (specs/Thin `shape`).
#![tactic(auto)]

mod marking;
mod nodes;
mod pushing;

pub use marking::{bookmark, pop, remove_bookmark, truncate};
pub use nodes::{begin, end, end_with_error};
pub use pushing::{push_error, push_token};
