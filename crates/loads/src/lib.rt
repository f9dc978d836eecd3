// What happens to an outstation with switching tables, reckoned by hand, as rows that are computed: specs/ has what is given and what is due, proofs/ says that they are equal, and there is no code.
#![tactic(auto)]
