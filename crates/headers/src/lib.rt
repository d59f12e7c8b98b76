// The words of a header, written together: a chunk in use, a free chunk, one that is in no bin, and the link of the chunk above.
// Every store falls into the region or is dropped; which chunks are where is not known here.
#![tactic(auto)]

ghost use Rattle.std.specs.Prelude.{◌≡◌, ◌-◌};
ghost use Rattle.headers.specs.Headers.{above_words, free_words, used_words};
ghost use Rattle.region.specs.Words.{written};
ghost use Rattle.rules.specs.Draft.{no_bin_words};

use region::{BACKWARD, BIN, Chunk, FORWARD, IN_USE, NEXT_IN_BIN, PREVIOUS_IN_BIN, SIZE, store};

// Of places in the wrong order, which no heap that passes has, the distance is 0: the function needs no requirement.
pub fn distance(from: u32, to: u32) -> u32
    ensures { result ≡ to - from }
{
    to.saturating_sub(from)
}

// The first three words of a free chunk, which reaches up to the next one.
#[tactic(auto, unfolding(crate::specs::Headers::free_words))]
pub fn write_free(region: &mut [u32], before: Chunk, chunk: Chunk, next: Chunk)
    ensures { region.new ≡ written region.old (free_words before.0 chunk.0 next.0) }
{
    store(region, chunk, FORWARD, next.0);
    store(region, chunk, BACKWARD, before.0);
    store(region, chunk, SIZE, distance(chunk.0, next.0));
}

// Donor and top are in no bin.
pub fn write_no_bin(region: &mut [u32], chunk: Chunk)
    ensures { region.new ≡ written region.old (no_bin_words chunk.0) }
{
    store(region, chunk, NEXT_IN_BIN, 0);
    store(region, chunk, PREVIOUS_IN_BIN, 0);
    store(region, chunk, BIN, 0);
}

// The two words of a chunk in use, which reaches up to the next one.
#[tactic(auto, unfolding(crate::specs::Headers::used_words))]
pub fn write_used(region: &mut [u32], before: Chunk, chunk: Chunk, next: Chunk)
    ensures { region.new ≡ written region.old (used_words before.0 chunk.0 next.0) }
{
    store(region, chunk, FORWARD, next.0);
    store(region, chunk, BACKWARD, before.0.wrapping_add(IN_USE));
}

// The chunk above names this one, and keeps its flags.
#[tactic(auto, unfolding(crate::specs::Headers::above_words))]
pub fn write_above(region: &mut [u32], chunk: Chunk, above: Chunk, flags: u32)
    ensures { region.new ≡ written region.old (above_words chunk.0 above.0 flags) }
{
    store(region, above, BACKWARD, chunk.0.wrapping_add(flags));
}
