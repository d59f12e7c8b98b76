// The chunks at which there is nothing to mend: a run passes them without a second look. On a whole heap that is all of them.
ghost use Rattle.std.specs.Prelude.{◌≡◌};
ghost use Rattle.patrol.specs.Skim.{is_right_m, is_start_whole_m, is_whole_m, skim_above_m, skim_m};

use crate::links::can_follow;
use headers::distance;
use region::{ALIGNMENT, Chunk, END_SIZE, LEAST, Links, SIZE, links_of, word};

// What of a run is left: so many chunks, from this one on.
#[derive(Clone, Copy)]
pub struct Rest {
    pub chunk: Chunk,
    pub left: u32,
}

// A chunk in use has no size word; a free one's is its size. `back` is the chunk's second word.
#[tactic(auto, unfolding(crate::specs::Skim::is_right_m))]
pub fn is_right(region: &[u32], chunk: Chunk, back: u32, size: u32) -> bool
    ensures { result ≡ is_right_m region.now chunk.0 back size }
{
    if back % ALIGNMENT % 2 == 1 {
        return true;
    }
    word(region, chunk, SIZE) == size
}

// The forward link of a chunk above the start is believed, and the chunk and the one above it say what they should. `above` are
// that one's links.
#[tactic(auto, unfolding(crate::specs::Skim::is_whole_m))]
pub fn is_whole(region: &[u32], end: u32, chunk: Chunk, links: Links, above: Links) -> bool
    ensures { result ≡ is_whole_m region.now end chunk.0 links above }
{
    if !can_follow(end, chunk, LEAST, links.forward) {
        return false;
    }
    let back = above.backward;
    if back - back % ALIGNMENT != chunk.0 {
        return false;
    }
    is_right(
        region,
        chunk,
        links.backward,
        distance(chunk.0, links.forward),
    )
}

// The same of the start, whose backward link and whose place are 0.
#[tactic(auto, unfolding(crate::specs::Skim::is_start_whole_m))]
pub fn is_start_whole(end: u32, links: Links, above: Links) -> bool
    ensures { result ≡ is_start_whole_m end links above }
{
    if !can_follow(end, Chunk(0), END_SIZE, links.forward) {
        return false;
    }
    if ALIGNMENT <= above.backward {
        return false;
    }
    links.backward < ALIGNMENT
}

// Each chunk's links are read once: those of the one above are the next chunk's own.
pub fn skim_above(region: &[u32], end: u32, rest: Rest) -> Rest
    ensures { result ≡ skim_above_m rest.left region.now end rest.chunk.0 }
{
    let mut chunk = rest.chunk;
    let mut links = links_of(region, chunk);
    for passed in 0..rest.left {
        let above = links_of(region, Chunk(links.forward));
        if !is_whole(region, end, chunk, links, above) {
            let left = rest.left - passed;
            return Rest { chunk, left };
        }
        chunk = Chunk(links.forward);
        links = above;
    }
    Rest { chunk, left: 0 }
}

// The start is tested apart, so that the loop above need not ask for it.
pub fn skim(region: &[u32], end: u32, rest: Rest) -> Rest
    ensures { result ≡ skim_m rest.left region.now end rest.chunk.0 }
{
    if rest.chunk.0 != 0 {
        return skim_above(region, end, rest);
    }
    if rest.left == 0 {
        return rest;
    }
    let links = links_of(region, rest.chunk);
    let above = links_of(region, Chunk(links.forward));
    if !is_start_whole(end, links, above) {
        return rest;
    }
    let chunk = Chunk(links.forward);
    let left = rest.left - 1;
    skim_above(region, end, Rest { chunk, left })
}
