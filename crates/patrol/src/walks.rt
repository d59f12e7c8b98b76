// The two walks of a run, which call each other: forward along the links, and backward from the end chunk where a link is broken.
// Each hands over at a broken link alone, so that the stack grows with the broken links of a run and not with its chunks.
// With `WRITES` off a run decides; with it on, it mends.
ghost use Rattle.std.specs.Prelude.{◌≡◌};
ghost use Rattle.patrol.specs.Walks.{found, onward_m, walk_m, walked};
ghost use Rattle.rules.specs.Patrol.{seek_from};

use crate::links::{back_of, is_broken, is_near};
use crate::mend::handle;
use crate::skim::Rest;
use record::answers::Refusal;
use region::{Chunk, FORWARD, word};

// Where a run stops. That a link is beyond mending is its one error.
#[derive(Clone, Copy)]
pub enum Stop {
    // the run's chunks are used up, and the next run begins here
    Paused(Chunk),
    // the end chunk was handled
    Ended,
}

#[cycle(backward_forward)]
pub fn forward<const WRITES: bool>(
    region: &mut [u32],
    end: u32,
    rest: Rest,
) -> Result<Stop, Refusal>
    ensures { walked result region.new ≡ walk_m WRITES rest.left region.old end rest.chunk.0 }
{
    let mut chunk = rest.chunk;
    for handled in 0..rest.left {
        if chunk.0 == end {
            return Ok(Stop::Ended);
        }
        let link = word(region, chunk, FORWARD);
        if is_broken(region, end, chunk, link) {
            let left = rest.left - handled - 1;
            return backward::<WRITES>(region, end, Rest { chunk, left });
        }
        handle::<WRITES>(region, chunk, Chunk(link));
        chunk = Chunk(link);
    }
    Ok(Stop::Paused(chunk))
}

// The chunk above one whose link is broken: the one that the walk from the end chunk down finds, if no link there is beyond mending.
fn seek_next(region: &[u32], end: u32, chunk: Chunk) -> Option<Chunk>
    ensures { result ≡ found (seek_from end region.now chunk.0 end) }
{
    let mut at = end;
    let mut below = back_of(region, Chunk(at));
    while chunk.0 < below && !is_near(below, at) {
        at = below;
        below = back_of(region, Chunk(at));
    }
    if below != chunk.0 || is_near(below, at) {
        return None;
    }
    Some(Chunk(at))
}

// The link of the chunk is broken, and `left` chunks remain after it.
#[cycle(backward_forward)]
pub fn backward<const WRITES: bool>(
    region: &mut [u32],
    end: u32,
    rest: Rest,
) -> Result<Stop, Refusal>
    ensures { walked result region.new ≡ onward_m WRITES rest.left region.old end rest.chunk.0 (seek_from end region.old rest.chunk.0 end) }
{
    let Some(next) = seek_next(region, end, rest.chunk) else {
        return Err(Refusal::BeyondMending);
    };
    handle::<WRITES>(region, rest.chunk, next);
    let left = rest.left;
    forward::<WRITES>(region, end, Rest { chunk: next, left })
}
