// Facts of the tokens' definition that take long to compute: apart from it, so that a change of it is checked sooner. They stand in
// specs/: theorems, not a program.
#![tactic(auto)]
