// The words of a chunk that has a whole header, and what is asked of a free chunk that is in no bin.
ghost use Rattle.std.specs.Prelude.{◌≡◌, ◌+◌, ◌/◌, ◌<◌, length};
ghost use Rattle.region.specs.Words.{bin, size, word};
ghost use Rattle.rules.specs.Check.{unbinned};

use record::heap::Summary;
use region::{BIN, Chunk, END_SIZE, NEXT_IN_BIN, PREVIOUS_IN_BIN, SIZE};

// The six words of the header are inside the region, so that they are read with no bounds check.
#[derive(Clone, Copy)]
pub struct Header<'a> {
    pub region: &'a [u32],
    pub chunk: Chunk,
    pub ghost inside: { chunk.0 / 4 + bin < length region.now },
}

impl Header<'_> {
    ghost use Rattle.survey.specs.Chunks.{is_donor_m, is_top_m};

    #[tactic(auto, unfolding(region::specs::Words::word))]
    pub fn size(self) -> u32
        ensures { result ≡ word self.entry.region.now self.entry.chunk.0 size }
    {
        let i = (self.chunk.0 / 4) as usize;
        self.region[i + SIZE as usize]
    }

    #[tactic(auto, unfolding(region::specs::Words::word))]
    pub fn is_unbinned(self) -> bool
        ensures { result ≡ unbinned self.entry.region.now self.entry.chunk.0 }
    {
        let i = (self.chunk.0 / 4) as usize;
        self.region[i + NEXT_IN_BIN as usize] == 0
            && self.region[i + PREVIOUS_IN_BIN as usize] == 0
            && self.region[i + BIN as usize] == 0
    }

    // The donor is in no bin, and below the top.
    #[tactic(auto, unfolding(crate::specs::Chunks::is_donor_m))]
    pub fn is_donor(self, summary: Summary) -> bool
        ensures { result ≡ is_donor_m self.entry.region.now summary self.entry.chunk.0 }
    {
        self.is_unbinned() && summary.donor.0 < summary.top.0
    }

    // The top is in no bin, and reaches up to the end chunk.
    #[tactic(auto, unfolding(crate::specs::Chunks::is_top_m))]
    pub fn is_top(self, summary: Summary, next: u32) -> bool
        ensures { result ≡ is_top_m self.entry.region.now summary self.entry.chunk.0 next }
    {
        self.is_unbinned() && next as u64 + END_SIZE as u64 == summary.bytes as u64
    }
}
