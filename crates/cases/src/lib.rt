// The recorder's cases reckoned by hand, as rows that are computed: specs/ has what is given and what is due, proofs/ says that they are equal, and there is no code.
#![tactic(auto)]
