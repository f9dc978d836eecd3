// What a ledger may know of a day, and what it knows after any delivery of blocks: specs/ states it, proofs/ proves it, and there is no code.
#![tactic(auto)]
