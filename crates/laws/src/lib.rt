// Definitions and laws that more than one crate cites: specs/ and proofs/ hold them, and there is no code.
#![tactic(auto)]
