// What walks of code by hand share, whatever the code. It stands in specs/ and proofs/: theorems, not a program.
#![tactic(auto)]
