// The bitmap of chunks: a mark for each multiple of 8, one bit of a word of 32 bits.
// What a mark means is not known here.
#![tactic(auto)]

ghost use Rattle.std.specs.Prelude.{◌*◌, ◌/◌, ◌<◌, length, ◌≡◌};
ghost use Rattle.marks.specs.Marks.{clear, marked, flipped, number_m};

use region::{ALIGNMENT, Chunk, LARGEST_HEAP};

const BITS: u32 = 32;

// The bytes of the heap for which one word of the bitmap has marks.
const SPAN: u32 = ALIGNMENT * BITS;

// The lowest of the three top bits of a word.
const TOP_BITS: u32 = 1 << (BITS - 3);

// A bitmap of this many words has a mark for every chunk of the largest heap.
pub const MARK_WORDS: usize = (LARGEST_HEAP / SPAN) as usize;

// The bitmap of a heap, however large the heap is.
#[derive(Drop)]
pub struct Marks {
    pub words: [u32; MARK_WORDS],
}

impl Marks {
    // No chunk is marked.
    pub fn clear() -> Self
        ensures { result.words ≡ clear }
    {
        Self {
            words: [0; MARK_WORDS],
        }
    }

    // Turns the mark over: sets it where it is clear, clears it where it is set.
    pub fn flip(&mut self, chunk: Chunk)
        requires { chunk.0 < LARGEST_HEAP }
        ensures { self.new.words ≡ flipped self.old.words chunk.0 }
    {
        flip(&mut self.words, chunk)
    }

    // The mark with this number.
    pub fn is_marked(&self, number: u32) -> bool
        requires { 8 * number < LARGEST_HEAP }
        ensures { result ≡ marked self.now.words (8 * number) }
    {
        is_marked(&self.words, number)
    }
}

// The two in words that may be fewer or more than those of `Marks`.
pub fn flip(marks: &mut [u32], chunk: Chunk)
    requires { chunk.0 / 256 < length marks.old }
    ensures { marks.new ≡ flipped marks.old chunk.0 }
{
    let i = (chunk.0 / SPAN) as usize;
    marks[i] ^= 1 << (chunk.0 / ALIGNMENT % BITS);
}

pub fn is_marked(marks: &[u32], number: u32) -> bool
    requires { number / 32 < length marks.now }
    ensures { result ≡ marked marks.now (8 * number) }
{
    let i = (number / BITS) as usize;
    let bit = 1 << (number % BITS);
    marks[i] & bit != 0
}

// The number of a place's mark: multiples of 8 are counted from 0. Of any other place the low three bits, which are not all 0, come to the
// top, so that its number is above those of all marks. One comparison of the number then tests that a place is a multiple of 8 and that it
// is below a limit. The compiler makes one rotation of this.
pub fn number_of(chunk: Chunk) -> u32
    ensures { result ≡ number_m chunk.0 }
{
    chunk.0 / ALIGNMENT + chunk.0 % ALIGNMENT * TOP_BITS
}
