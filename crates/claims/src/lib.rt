// Demand 3 of the code: definitions and proofs alone.
#![tactic(auto)]
