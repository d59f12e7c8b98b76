// A chunk, or the chunk of a live block, is found by a walk of the chain from the start. A place that a caller hands in is
// compared with the chunks on the chain; the words beside it are not read, so that a double free is found out.
// Nothing is written here, and no bin is looked at.
#![tactic(auto)]

ghost use Rattle.std.specs.Prelude.{◌≡◌};
ghost use Rattle.rules.specs.Kinds.{is_at};
ghost use Rattle.rules.specs.Shape.{shape};
ghost use Rattle.seek.specs.Seek.{has_block_m, live_m, sought_m};

use chain::end_of;
use region::{ALIGNMENT, BACKWARD, Block, Chunk, END_SIZE, FORWARD, chunk_of, word};

// A chunk as the walk meets it. The start has no chunk below it, and 0 is given.
#[derive(Clone, Copy)]
pub struct Place {
    pub before: Chunk,
    pub chunk: Chunk,
    pub end: u32,
    pub flags: u32,
}

// The walk goes along links, and a range would count what nothing else counts.
pub fn find_chunk(region: &[u32], bytes: u32, place: u32) -> Option<Place>
    ensures { result ≡ sought_m (is_at place) 0 (shape region.now bytes) }
{
    let mut before = 0;
    let mut at = 0;
    loop {
        let next = word(region, Chunk(at), FORWARD);
        let end = end_of(bytes, Chunk(at), next);
        if at == place {
            let flags = word(region, Chunk(at), BACKWARD) % ALIGNMENT;
            return Some(Place {
                before: Chunk(before),
                chunk: Chunk(at),
                end,
                flags,
            });
        }
        if end == bytes {
            return None;
        }
        before = at;
        at = end;
    }
}

// A chunk in use, and neither of the ends, which are in use too and have no block.
#[tactic(auto, unfolding(crate::specs::Seek::live_m))]
pub fn has_live_block(bytes: u32, chunk: Chunk, flags: u32) -> bool
    ensures { result ≡ live_m bytes chunk.0 flags }
{
    if chunk.0 == 0 {
        return false;
    }
    if chunk.0 as u64 + END_SIZE as u64 == bytes as u64 {
        return false;
    }
    flags % 2 == 1
}

// Places go up along the chain, so that the one chunk eight bytes below is the only one that can hold the block.
#[tactic(auto, using(crate::proofs::SeekLaws::block_nowhere, crate::proofs::SeekLaws::block_dead, crate::proofs::SeekLaws::block_found))]
pub fn find_block(region: &[u32], bytes: u32, block: Block) -> Option<Place>
    ensures { result ≡ sought_m (has_block_m bytes block.0) 0 (shape region.now bytes) }
{
    let chunk = chunk_of(block);
    let place = find_chunk(region, bytes, chunk.0)?;
    has_live_block(bytes, place.chunk, place.flags).then_some(place)
}
