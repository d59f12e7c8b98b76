// The demonstration: a heap of 64 words, nine calls, and then the heap as it stands, chunk by chunk.
// What is printed is asked of the heap by its public calls alone.
#![tactic(auto)]

use crate::lines::{Kind, Line};
use record::answers::Answer;
use record::heap::Heap;
use record::questions::ChunkQuestion;
use region::Block;
use std::io;

mod lines;

// The words of the demonstration's region.
const REGION_WORDS: usize = 64;

// Every chunk has two words at least.
const MOST_CHUNKS: usize = REGION_WORDS / 2;

// A heap that is asked: the words of its region, and its record.
#[derive(Drop)]
struct Asked<'a> {
    region: &'a mut [u32],
    heap: Heap,
}

impl Asked<'_> {
    // None where there is no such chunk or no value, and where the heap fails.
    fn ask(&mut self, question: ChunkQuestion, chunk: u32) -> Option<u32> {
        let answer = heap::ask_chunk(self.region, self.heap, question as u32, chunk).answer;
        match answer {
            Answer::Told(value) => value,
            _ => None,
        }
    }

    // Free chunks by what the record says of them; an ordinary one with its bin.
    fn free_kind(&mut self, chunk: u32) -> Option<Kind> {
        if chunk == self.heap.donor.0 {
            return Some(Kind::Donor);
        }
        if chunk == self.heap.top.0 {
            return Some(Kind::Top);
        }
        let bin = self.ask(ChunkQuestion::Bin, chunk)?;
        Some(Kind::Free { bin })
    }

    // Above the end there is no chunk.
    fn kind(&mut self, chunk: u32) -> Option<Kind> {
        if chunk == 0 {
            return Some(Kind::Start);
        }
        if self.ask(ChunkQuestion::Next, chunk).is_none() {
            return Some(Kind::End);
        }
        if self.ask(ChunkQuestion::Type, chunk)? == 1 {
            return Some(Kind::InUse);
        }
        self.free_kind(chunk)
    }

    fn line(&mut self, chunk: u32) -> Option<Line> {
        let size = self.ask(ChunkQuestion::Size, chunk)?;
        let kind = self.kind(chunk)?;
        Some(Line { chunk, size, kind })
    }
}

fn print_chunks(rt: &impl Print, mut asked: Asked) -> io::Result<()> {
    let mut next = Some(0);
    for _ in 0..MOST_CHUNKS {
        let Some(chunk) = next else {
            break;
        };
        if let Some(line) = asked.line(chunk) {
            println!(rt; "{line}")?;
        }
        next = asked.ask(ChunkQuestion::Next, chunk);
    }
    Ok(())
}

// Calls 1 to 4: the first from the donor, which has too little to spare from then on, the others from the top.
fn fill(region: &mut [u32], fresh: Heap) -> Heap {
    let first = heap::allocate(region, fresh, 16).heap;
    let second = heap::allocate(region, first, 17).heap;
    let third = heap::allocate(region, second, 40).heap;
    heap::allocate(region, third, 64).heap
}

// Calls 6 to 9: two neighbours given back, one of them twice, and a block from what they joined to.
fn churn(region: &mut [u32], full: Heap) -> Heap {
    let sixth = heap::free(region, full, Block(80)).heap;
    let seventh = heap::free(region, sixth, Block(112)).heap;
    let eighth = heap::free(region, seventh, Block(112)).heap;
    heap::allocate(region, eighth, 16).heap
}

fn main(rt: HostRuntime) -> io::Result<()> {
    let mut region = [0u32; REGION_WORDS];
    let table = [24u32, 32, 40, 128];
    let fresh = heap::setup(&mut region, &table, 64, true).heap;
    let full = fill(&mut region, fresh);
    // Call 5: nothing can serve it.
    let refused = heap::allocate(&mut region, full, 16).heap;
    let heap = churn(&mut region, refused);
    let Heap {
        bytes,
        bins,
        used,
        ..
    } = heap;
    println!(rt; "{bytes} {bins} {used}")?;
    let asked = Asked {
        region: &mut region,
        heap,
    };
    print_chunks(&rt, asked)
}
