// The record that never drops a token. It stands in specs/: what the window must answer, not a program.
#![tactic(auto)]
