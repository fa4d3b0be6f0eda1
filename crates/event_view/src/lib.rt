// The event stream without its rings. It stands in specs/: theorems, not a program.
#![tactic(auto)]
