// Scripts of calls as numbers, whatever the calls. It stands in specs/: definitions and theorems, not a program.
#![tactic(auto)]
