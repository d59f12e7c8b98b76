// The patrol: a run handles a number of chunks from a place on, and mends their links and free sizes. It needs no heap that passes:
// every link is tested before it is followed, and nothing outside the region is read or written.
// What the record is besides the heap bytes and the patrol's place is not known here.
// The region and `end`, its end chunk's place, stay two parameters: tests read the region and walks write it, so one struct would not do.
#![tactic(auto)]

ghost use Rattle.std.specs.Prelude.{◌≡◌};
ghost use Rattle.patrol.specs.Tours.{can_begin_m, Tours};
ghost use Rattle.patrol.specs.Walks.{run_m, walked};

use crate::skim::{Rest, skim};
use crate::walks::{Stop, forward};
use chain::length::fits_length;
use record::answers::{Answer, Refusal};
use region::{ALIGNMENT, Chunk, END_SIZE};

pub mod links;
pub mod mend;
pub mod skim;
pub mod walks;

// What an accepted run leaves beside the words: its answer, and the patrol's place.
#[derive(Clone, Copy)]
pub struct Toured {
    pub answer: Answer,
    pub place: Chunk,
}

// A run that is beyond mending writes nothing: the walks decide first, and write once that is known. Chunks with nothing to mend are
// passed before, so that a run over a whole heap is one walk.
pub fn run(region: &mut [u32], end: u32, all: Rest) -> Result<Stop, Refusal>
    ensures { walked result region.new ≡ run_m all.left region.old end all.chunk.0 }
{
    let rest = skim(region, end, all);
    if rest.left == 0 {
        return Ok(Stop::Paused(rest.chunk));
    }
    if rest.chunk.0 == end {
        return Ok(Stop::Ended);
    }
    forward::<false>(region, end, rest)?;
    forward::<true>(region, end, rest)
}

// The place is a multiple of 8, up to the end chunk, in a region of the right length.
#[tactic(auto, unfolding(crate::specs::Tours::can_begin_m))]
pub fn can_begin(words: usize, bytes: u32, place: Chunk) -> bool
    ensures { result ≡ can_begin_m words bytes place.0 }
{
    if !fits_length(words, bytes) {
        return false;
    }
    if place.0 % ALIGNMENT != 0 {
        return false;
    }
    place.0 as u64 + END_SIZE as u64 <= bytes as u64
}

// A run that ended goes on at the start the next time; a refused one leaves the place where it is.
pub fn tour(region: &mut [u32], bytes: u32, place: Chunk, chunks: u32) -> Result<Toured, Refusal>
    ensures { Tours region.old bytes place.0 chunks result region.new }
{
    if chunks == 0 {
        return Err(Refusal::RunSize);
    }
    if !can_begin(region.len(), bytes, place) {
        return Err(Refusal::HeapFails);
    }
    let all = Rest {
        chunk: place,
        left: chunks,
    };
    match run(region, bytes - END_SIZE, all)? {
        Stop::Paused(next) => Ok(Toured {
            answer: Answer::Told(Some(0)),
            place: next,
        }),
        Stop::Ended => Ok(Toured {
            answer: Answer::Told(Some(1)),
            place: Chunk(0),
        }),
    }
}
