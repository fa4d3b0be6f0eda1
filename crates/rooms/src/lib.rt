// Room that is lent: numbers, read as slots of so many each.
#![tactic(auto)]

// A slot of a room, counted from its start.
#[derive(Clone, Copy, Debug, PartialEq, Eq)]
pub struct Slot(pub usize);
