// The record of a fresh heap: the table with zeros after it, empty bins, the places of donor and top, and the patrol at the start.
// No word of the region is read or written here.
ghost use Rattle.std.specs.Prelude.{◌≡◌};
ghost use Rattle.fresh.specs.FirstHeaders.{first_donor_m, fresh_m, padded_m};

use record::heap::{Heap, PLACES};
use region::{Chunk, END_SIZE};

// The table, with zeros after it. Of a table with more sizes than there are places, which setup refuses before, the first are kept.
// A loop and not `copy_from_slice`: that moves memory by a length not known before, which `tools/portable` refuses. Nor a loop over
// `0..table.len().min(PLACES)`: the compiler turns that into a call of `memcpy`, which the archive for 64-bit Arm needs nowhere else.
#[tactic(auto, unfolding(crate::specs::FirstHeaders::padded_m))]
fn padded(table: &[u32]) -> [u32; PLACES]
    ensures { result ≡ padded_m table.now }
{
    let mut sizes = [0; PLACES];
    for i in 0..table.len() {
        if PLACES <= i {
            return sizes;
        }
        sizes[i] = table[i];
    }
    sizes
}

// Where the donor of a fresh heap starts, above the start chunk: of 0 bytes there is none.
#[tactic(auto, unfolding(crate::specs::FirstHeaders::first_donor_m))]
pub fn first_donor(bytes: u32) -> Option<Chunk>
    ensures { result ≡ first_donor_m bytes }
{
    if bytes == 0 {
        return None;
    }
    Some(Chunk(END_SIZE))
}

// Every bin is empty. The record's donor is 0 where there is none.
#[tactic(auto, unfolding(crate::specs::FirstHeaders::fresh_m))]
pub fn fresh(bytes: u32, table: &[u32], donor: Option<Chunk>, top: Chunk, merge: bool) -> Heap
    ensures { result ≡ fresh_m bytes table.now donor top.0 merge }
{
    Heap {
        bytes,
        bins: table.len().min(PLACES) as u32,
        sizes: padded(table),
        heads: [0; PLACES],
        tails: [0; PLACES],
        donor: donor.unwrap_or(Chunk(0)),
        top,
        merge,
        used: 0,
        patrol: Chunk(0),
    }
}
