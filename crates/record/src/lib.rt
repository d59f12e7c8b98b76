// The record of a heap, what calls answer, the numbers of the questions, the kinds of a chunk, the sources of a block and the bin table:
// each in its own file.
// No word of the region is read or written here.
#![tactic(auto)]

pub mod answers;
pub mod heap;
pub mod kinds;
pub mod questions;
pub mod sources;
pub mod table;
