// Granting a block: how many bytes it needs, from where they come, and the cut that makes it. The check and the refusals come before.
// Of the record the summary and the arrays that are used come in; the caller sets it.
#![tactic(auto)]

pub mod choose;
pub mod cut;
pub mod need;
pub mod serve;
