// No code: the bins' lists as they stand in words, heads and tails (specs/), and what leaving and putting make of them (proofs/).
#![tactic(auto)]
