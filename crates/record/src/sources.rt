// From where a need is met. Which source is chosen is in the rules.
use region::Chunk;

#[derive(Clone, Copy)]
pub enum Source {
    FromBin(Chunk),
    FromDonor,
    FromTop,
}
