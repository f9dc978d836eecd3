// A meter's life and what its blocks come to at the desk, over the definitions that the other crates' contracts cite: specs/ states it, proofs/ proves it, and there is no code.
#![tactic(auto)]
