// The order of answers, by cases of which each is refused by two checks or more: specs/ has what is given and what is due, proofs/ computes it, and there is no
// code.
#![tactic(auto)]
