// One life worked through by computing, from set-up to the ledger: specs/ says what happens and what the rules say of it, proofs/ computes it, and there is no
// code.
#![tactic(auto)]
