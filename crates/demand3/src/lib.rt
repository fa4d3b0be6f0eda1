// Demand 3 of the window: a theorem, not a program. What it says stands in specs/, its proof in proofs/.
#![tactic(auto)]
