// The lent region: places of chunks and of blocks, and the words of a chunk's header.
// What the words mean (links, flags, sizes) is not known here.
#![tactic(auto)]

ghost use Rattle.std.specs.Prelude.{◌≡◌};
ghost use Rattle.region.specs.Places.{block_at, chunk_at};
ghost use Rattle.region.specs.Words.{backward, forward, word, store};

// A chunk's place and a block's place, both byte offsets: eight bytes apart, and never mixed, since each has a type of its own.
#[derive(Clone, Copy, PartialEq, Eq)]
pub struct Chunk(pub u32);

#[derive(Clone, Copy, PartialEq, Eq)]
pub struct Block(pub u32);

// The words of a header by number. A chunk in use has the first two alone.
pub const FORWARD: u32 = 0;

pub const BACKWARD: u32 = 1;

pub const SIZE: u32 = 2;

pub const NEXT_IN_BIN: u32 = 3;

pub const PREVIOUS_IN_BIN: u32 = 4;

pub const BIN: u32 = 5;

// The flags of a chunk in use; a free chunk has none. They stand in the three low bits of the backward link.
pub const IN_USE: u32 = 1;

// The document's figures, by the names that the rules give them; each stands once, in the lowest crate that knows it.
// Places and sizes are multiples of this; what a backward link has beyond one are the flags.
pub const ALIGNMENT: u32 = 8;

// The bin word is the bin's number times this.
pub const BIN_FACTOR: u32 = 8;

// A block starts above the two links of its chunk.
pub const OVERHEAD: u32 = 8;

// Start chunk and end chunk are two links and nothing else.
pub const END_SIZE: u32 = 8;

// A free chunk has a header of six words, so that no chunk between the ends is smaller.
pub const LEAST: u32 = 24;

pub const FEWEST_WORDS: usize = 10;

pub const MOST_WORDS: usize = 16384;

// The bytes of the largest heap: no chunk is larger.
pub const LARGEST_HEAP: u32 = 4 * MOST_WORDS as u32;

// No block starts here: it is no multiple of 8.
const NO_BLOCK: u32 = 4294967295;

// The last eight numbers have no number eight above them: they give `NO_BLOCK`. An answer for each place, and no option, since the rules
// stand on `block_at` and `chunk_at`.
pub fn block_of(chunk: Chunk) -> Block
    ensures { result.0 ≡ block_at chunk.0 }
{
    if chunk.0 <= NO_BLOCK - OVERHEAD {
        Block(chunk.0 + OVERHEAD)
    } else {
        Block(NO_BLOCK)
    }
}

// Of the first eight numbers none is a block's place: they give 0, the start chunk, which has no block.
pub fn chunk_of(block: Block) -> Chunk
    ensures { result.0 ≡ chunk_at block.0 }
{
    if OVERHEAD <= block.0 {
        Chunk(block.0 - OVERHEAD)
    } else {
        Chunk(0)
    }
}

// A damaged link may lead anywhere: outside the region every word reads 0.
#[tactic(auto, unfolding(crate::specs::Words::word))]
pub fn word(region: &[u32], chunk: Chunk, number: u32) -> u32
    ensures { result ≡ word region.now chunk.0 number }
{
    let i = (chunk.0 / 4) as usize + number as usize;
    if i < region.len() { region[i] } else { 0 }
}

// The two words that every chunk has.
#[derive(Clone, Copy)]
pub struct Links {
    pub forward: u32,
    pub backward: u32,
}

// The patrol reads both links of every chunk: one bounds check covers both words.
#[tactic(auto, unfolding(crate::specs::Words::word))]
pub fn links_of(region: &[u32], chunk: Chunk) -> Links
    ensures { (result.forward ≡ word region.now chunk.0 forward) × (result.backward ≡ word region.now chunk.0 backward) }
{
    let i = (chunk.0 / 4) as usize;
    if i + 1 < region.len() {
        return Links {
            forward: region[i],
            backward: region[i + 1],
        };
    }
    Links {
        forward: word(region, chunk, FORWARD),
        backward: word(region, chunk, BACKWARD),
    }
}

// Outside the region nothing is written.
#[tactic(auto, unfolding(crate::specs::Words::store))]
pub fn store(region: &mut [u32], chunk: Chunk, number: u32, value: u32)
    ensures { region.new ≡ store region.old chunk.0 number value }
{
    let i = (chunk.0 / 4) as usize + number as usize;
    if i < region.len() {
        region[i] = value;
    }
}
