// No code: the list vocabulary of the rules (specs/) and its laws (proofs/).
#![tactic(auto)]
