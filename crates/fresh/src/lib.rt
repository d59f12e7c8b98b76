// The headers of a fresh heap: start, donor if there is one, top and end. Every store falls into the region or is dropped.
// Whether the sizes fit the region is asked before. The record of a fresh heap is in `first_record`.
#![tactic(auto)]

ghost use Rattle.std.specs.Prelude.{◌≡◌};
ghost use Rattle.region.specs.Words.{written};
ghost use Rattle.fresh.specs.FirstHeaders.{first_words, free_chunks_words};

use headers::{write_free, write_no_bin, write_used};
use region::{Chunk, END_SIZE};

pub mod first_record;

// Donor, if there is one, and top: the first of them starts above the start chunk, and the donor is in no bin.
#[tactic(auto, using(region::proofs::WordsLaws::written_append), unfolding(crate::specs::FirstHeaders::free_chunks_words))]
fn write_free_chunks(region: &mut [u32], donor: Option<Chunk>, top: Chunk, end: Chunk)
    ensures { region.new ≡ written region.old (free_chunks_words donor top.0 end.0) }
{
    let Some(donor) = donor else {
        write_free(region, Chunk(0), top, end);
        return;
    };
    write_free(region, Chunk(0), donor, top);
    write_free(region, donor, top, end);
    write_no_bin(region, donor);
}

// The ends are always in use, so that no chunk coalesces with them. No chunk follows the end: its forward link is 0.
#[tactic(auto, using(region::proofs::WordsLaws::written_append), unfolding(crate::specs::FirstHeaders::first_words))]
pub fn write_headers(region: &mut [u32], donor: Option<Chunk>, top: Chunk, end: Chunk)
    ensures { region.new ≡ written region.old (first_words donor top.0 end.0) }
{
    write_used(region, Chunk(0), Chunk(0), Chunk(END_SIZE));
    write_free_chunks(region, donor, top, end);
    write_no_bin(region, top);
    write_used(region, top, end, Chunk(0));
}
