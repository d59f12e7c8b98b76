// No code: what the rules promise of every call (specs/), proved of the rules (proofs/).
#![tactic(auto)]
