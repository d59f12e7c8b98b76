// A chunk as the walk of the chain meets it, and how the chain goes on behind it.
ghost use Rattle.std.specs.Prelude.{◌≡◌, ◌+◌, ◌/◌, ◌%◌, ◌<◌, length};

use region::{ALIGNMENT, BACKWARD, Chunk, FORWARD, IN_USE, LEAST};

// The chunk before it, its place, its forward link, and its second word, the backward link with the flags.
// The chunk and the one before it are where chunks can be, one behind the other.
#[derive(Clone, Copy)]
pub struct Visit {
    pub before: Chunk,
    pub chunk: Chunk,
    pub next: u32,
    pub link: u32,
    pub ghost eight: { chunk.0 % 8 ≡ 0 },
    pub ghost eight_before: { before.0 % 8 ≡ 0 },
    pub ghost behind: { before.0 < chunk.0 },
    pub ghost within: { chunk.0 < 65536 },
}

impl Visit {
    ghost use Rattle.survey.specs.Chunks.{HasRead, goes_on_m, is_last_m};

    // Reads the two links of a chunk behind another.
    #[tactic(auto, unfolding(region::specs::Words::word))]
    pub fn meet(region: &[u32], before: Chunk, chunk: Chunk) -> Self
        requires inside { chunk.0 / 4 + 1 < length region.now }
        requires eight { chunk.0 % 8 ≡ 0 }
        requires eight_before { before.0 % 8 ≡ 0 }
        requires behind { before.0 < chunk.0 }
        requires within { chunk.0 < 65536 }
        ensures before { result.before ≡ before }
        ensures chunk { result.chunk ≡ chunk }
        ensures read { HasRead region.now result }
    {
        let i = (chunk.0 / 4) as usize;
        Self {
            before,
            chunk,
            next: region[i + FORWARD as usize],
            link: region[i + BACKWARD as usize],
        }
    }

    // The chain goes on: the forward link leads to a multiple of 8, far enough up that the chunk has room for a header, and not past the
    // limit.
    #[tactic(auto, unfolding(crate::specs::Chunks::goes_on_m))]
    pub fn goes_on(self, limit: u32) -> bool
        ensures { result ≡ goes_on_m self limit }
    {
        self.next % ALIGNMENT == 0 && self.chunk.0 + LEAST <= self.next && self.next <= limit
    }

    // The end chunk: the last 8 bytes, in use, behind the chunk before, and with no next chunk.
    #[tactic(auto, unfolding(crate::specs::Chunks::is_last_m))]
    pub fn is_last(self, last: u32) -> bool
        ensures { result ≡ is_last_m self last }
    {
        self.chunk.0 == last && self.next == 0 && self.link == self.before.0 + IN_USE
    }
}
