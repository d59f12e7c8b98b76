// The public calls: each takes the region and the record, and hands the record back beside its answer.
// Each asks the check first; setup and the patrol do not. How chunks are found, joined and written is in the layers below.
// What is lent of a record are copies of its arrays: where a part of the record itself is lent, the compiler keeps one more copy of the whole for
// each call that takes it.
#![tactic(auto)]

ghost use Rattle.rules.specs.Allocate.{allocate_with};
ghost use Rattle.rules.specs.Statements.{Allocates, AllocatesCleared, AsksBin, AsksChunk, Checks, Frees, Meets, Patrols, Reallocates, SetsMerge, SetsUp};
ghost use Rattle.supply.specs.Supply.{fill_stores};

use audit::{passes, verdict};
use grant::need::{is_permitted, need_of};
use patrol::tour;
use reclaim::reclaim;
use record::answers::{Answer, Refusal, Reply};
use record::heap::{Ends, Heap};
use record::table::Table;
use region::Block;
use replies::refused;
use resize::resize;
use seek::find_block;
use supply::{Want, supply};

pub fn setup(region: &mut [u32], table: &[u32], donor: u32, merge: bool) -> Reply
    ensures { SetsUp region.old table.now donor merge result region.new }
{
    opening::setup(region, table, donor, merge)
}

#[tactic(auto, unfolding(rules::specs::Merge::check))]
pub fn check(region: &mut [u32], heap: Heap) -> Reply
    ensures { Checks region.old heap result region.new }
{
    Reply {
        answer: verdict(region, heap),
        heap,
    }
}

#[tactic(auto, unfolding(rules::specs::Merge::set_merge))]
pub fn set_merge(region: &mut [u32], heap: Heap, on: bool) -> Reply
    ensures { SetsMerge region.old heap on result region.new }
{
    if !passes(region, heap) {
        return refused(heap, Refusal::HeapFails);
    }
    Reply {
        answer: Answer::Done,
        heap: heap.with_merge(on),
    }
}

pub fn ask_chunk(region: &mut [u32], heap: Heap, question: u32, place: u32) -> Reply
    ensures { AsksChunk region.old heap question place result region.new }
{
    if !passes(region, heap) {
        return refused(heap, Refusal::HeapFails);
    }
    let even = (heap.bytes / 4) as usize;
    let bins = heap.bins as usize;
    let sizes = heap.sizes;
    let table = Table {
        sizes: &sizes[..bins],
    };
    let told = ask::ask_chunk(&region[..even], table, heap.summary(), question, place);
    Reply {
        answer: Answer::from(told),
        heap,
    }
}

pub fn ask_bin(region: &mut [u32], heap: Heap, question: u32, bin: u32) -> Reply
    ensures { AsksBin region.old heap question bin result region.new }
{
    if !passes(region, heap) {
        return refused(heap, Refusal::HeapFails);
    }
    let even = (heap.bytes / 4) as usize;
    let heads = heap.heads;
    let tails = heap.tails;
    let told = ask::ask_bin(
        &region[..even],
        &heads,
        &tails,
        heap.summary(),
        question,
        bin,
    );
    Reply {
        answer: Answer::from(told),
        heap,
    }
}

// What both allocates come to, once the size is one number.
fn allocate_with(region: &mut [u32], heap: Heap, z: u64, clears: bool) -> Reply
    ensures { Meets region.old (allocate_with (fill_stores clears) region.old heap z) result region.new }
{
    if !passes(region, heap) {
        return refused(heap, Refusal::HeapFails);
    }
    if !is_permitted(z) {
        return refused(heap, Refusal::BlockSize);
    }
    let need = need_of(z as u32);
    let mut heads = heap.heads;
    let mut tails = heap.tails;
    let mut ends = Ends {
        heads: &mut heads,
        tails: &mut tails,
    };
    let want = Want { need, clears };
    let bins = heap.bins as usize;
    let sizes = heap.sizes;
    let table = Table {
        sizes: &sizes[..bins],
    };
    let supplied = match supply(region, &mut ends, table, heap.summary(), want) {
        Ok(supplied) => supplied,
        Err(why) => return refused(heap, why),
    };
    Reply {
        answer: supplied.answer,
        heap: heap.with_books(heads, tails, supplied.summary),
    }
}

#[tactic(auto, unfolding(rules::specs::Allocate::allocate))]
pub fn allocate(region: &mut [u32], heap: Heap, z: u32) -> Reply
    ensures { Allocates region.old heap z result region.new }
{
    allocate_with(region, heap, z as u64, false)
}

// The product of two 32-bit numbers always fits 64 bits.
#[tactic(auto, using(crate::proofs::AllocateLaws::product_fits), unfolding(rules::specs::Allocate::allocate_cleared))]
pub fn allocate_cleared(region: &mut [u32], heap: Heap, count: u32, size: u32) -> Reply
    ensures { AllocatesCleared region.old heap count size result region.new }
{
    let product = count as u64 * size as u64;
    allocate_with(region, heap, product, true)
}

pub fn free(region: &mut [u32], heap: Heap, block: Block) -> Reply
    ensures { Frees region.old heap block.0 result region.new }
{
    if !passes(region, heap) {
        return refused(heap, Refusal::HeapFails);
    }
    if block.0 == 0 {
        return Reply {
            answer: Answer::Returned(0),
            heap,
        };
    }
    let Some(place) = find_block(region, heap.bytes, block) else {
        return refused(heap, Refusal::NotLive);
    };
    let mut heads = heap.heads;
    let mut tails = heap.tails;
    let mut ends = Ends {
        heads: &mut heads,
        tails: &mut tails,
    };
    let bins = heap.bins as usize;
    let sizes = heap.sizes;
    let table = Table {
        sizes: &sizes[..bins],
    };
    let freed = reclaim(region, &mut ends, table, heap.summary(), place);
    Reply {
        answer: freed.answer,
        heap: heap.with_books(heads, tails, freed.summary),
    }
}

pub fn reallocate(region: &mut [u32], heap: Heap, block: Block, z: u32) -> Reply
    ensures { Reallocates region.old heap block.0 z result region.new }
{
    if block.0 == 0 {
        return allocate(region, heap, z);
    }
    if !passes(region, heap) {
        return refused(heap, Refusal::HeapFails);
    }
    if !is_permitted(z as u64) {
        return refused(heap, Refusal::BlockSize);
    }
    let Some(place) = find_block(region, heap.bytes, block) else {
        return refused(heap, Refusal::NotLive);
    };
    let bins = heap.bins as usize;
    let sizes = heap.sizes;
    let table = Table {
        sizes: &sizes[..bins],
    };
    resize(region, table, heap, place, need_of(z))
}

// The check is not asked: the patrol is for heaps that fail it.
pub fn patrol(region: &mut [u32], heap: Heap, chunks: u32) -> Reply
    ensures { Patrols region.old heap chunks result region.new }
{
    match tour(region, heap.bytes, heap.patrol, chunks) {
        Ok(toured) => Reply {
            answer: toured.answer,
            heap: heap.with_patrol(toured.place),
        },
        Err(refusal) => refused(heap, refusal),
    }
}
