// A block's bytes written out, and what a reader makes of them: specs/ has what is given and what is due, proofs/ computes it, and there is no code.
#![tactic(auto)]
