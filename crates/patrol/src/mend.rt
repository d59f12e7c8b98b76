// Handling a chunk whose next one is known: its links and, if it is free, its size are made right.
ghost use Rattle.std.specs.Prelude.{◌≡◌};
ghost use Rattle.patrol.specs.Mends.{handle_m, mend_back_m, mend_own_m};
ghost use Rattle.region.specs.Words.{written};
ghost use Rattle.rules.specs.Patrol.{mend};

use headers::distance;
use region::{ALIGNMENT, BACKWARD, Chunk, FORWARD, SIZE, store, word};

// A word that is right already is not written.
fn mend_word(region: &mut [u32], chunk: Chunk, number: u32, value: u32)
    ensures { region.new ≡ written region.old (mend region.old chunk.0 number value) }
{
    if word(region, chunk, number) != value {
        store(region, chunk, number, value);
    }
}

// The backward link of a chunk names the one below it; the flags stay.
#[tactic(auto, unfolding(crate::specs::Mends::mend_back_m))]
fn mend_back(region: &mut [u32], chunk: Chunk, below: Chunk)
    ensures { region.new ≡ mend_back_m region.old chunk.0 below.0 }
{
    let flags = word(region, chunk, BACKWARD) % ALIGNMENT;
    let link = below.0 - below.0 % ALIGNMENT;
    mend_word(region, chunk, BACKWARD, link + flags);
}

// The start has a backward link to nothing and no size; a chunk in use has no size word either.
#[tactic(auto, unfolding(crate::specs::Mends::mend_own_m))]
fn mend_own(region: &mut [u32], chunk: Chunk, next: Chunk)
    ensures { region.new ≡ mend_own_m region.old chunk.0 next.0 }
{
    if chunk.0 == 0 {
        mend_back(region, chunk, Chunk(0));
        return;
    }
    if word(region, chunk, BACKWARD) % ALIGNMENT % 2 == 1 {
        return;
    }
    mend_word(region, chunk, SIZE, distance(chunk.0, next.0));
}

// Where a run only decides, nothing is written.
#[tactic(auto, unfolding(crate::specs::Mends::handle_m))]
pub fn handle<const WRITES: bool>(region: &mut [u32], chunk: Chunk, next: Chunk)
    ensures { region.new ≡ handle_m WRITES region.old chunk.0 next.0 }
{
    if WRITES {
        mend_word(region, chunk, FORWARD, next.0);
        mend_back(region, next, chunk);
        mend_own(region, chunk, next);
    }
}
