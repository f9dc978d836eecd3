// Demand 3 of the bytes that opening and filing leave: specs/ states it, proofs/ proves it, and there is no code.
#![tactic(auto)]
