// The machine has definitions and theorems only: see specs/ and proofs/.
#![tactic(auto)]
