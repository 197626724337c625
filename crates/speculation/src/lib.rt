// The speculative run has definitions and theorems here: see specs/ and proofs/.
#![tactic(auto)]
