// No code: the rules of the manual, sections 2 to 6 (specs/), what the check's test decides and the marked cases (proofs/).
#![tactic(auto)]
