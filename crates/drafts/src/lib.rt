// No code: what the rules' drafts come to once they are written (proofs/). A call's draft is a grant, a free, a shrink or a move.
#![tactic(auto)]
