// The record and the answer as flat words: unpacked, packed, and the two handed back to C.
// What a call does is not known here. Neither the record nor the answer is of this crate, nor are arrays, so no `From` says it.
ghost use Rattle.std.specs.Prelude.{◌≡◌, ◌+◌, ◌≤◌, length};
ghost use Rattle.std.proofs.Math.Seq.{paste};
ghost use Rattle.abi.specs.Flat.{record_in, record_out, answer_out, refusal_out};
ghost use Rattle.abi.specs.Handed.{flat_after, handed, handed_by};
ghost use Rattle.abi.specs.Replied.{Makes};
ghost use Rattle.record.specs.Heap.{summary_of};
ghost use Rattle.record.specs.declared.answers.Answer.TheVariants.{Refused};
ghost use Rattle.record.specs.declared.answers.Refusal.TheVariants.{HeapFails};
ghost use Rattle.rules.specs.Outcome.{Outcome};

use crate::{ANSWER_WORDS, RECORD_WORDS};
use record::answers::{Answer, Refusal, Reply};
use record::heap::{Heap, PLACES, Summary};
use region::Chunk;

// Where the parts of the record stand, which kz_record of include/kruzhvela.h fixes: its scalars one after the other, then the sizes,
// heads and tails of the bins, and last the patrol's place.
pub const BYTES: usize = 0;

const BINS: usize = 1;

const DONOR: usize = 2;

const TOP: usize = 3;

pub const MERGE: usize = 4;

const USED: usize = 5;

pub const SIZES: usize = 6;

pub const HEADS: usize = SIZES + PLACES;

pub const TAILS: usize = HEADS + PLACES;

pub const PATROL: usize = TAILS + PLACES;

// The record without its arrays, which a call can lend where they stand.
#[tactic(auto, unfolding(crate::specs::Flat::record_in))]
pub fn unpack_summary(words: &[u32; RECORD_WORDS]) -> Summary
    ensures { result ≡ summary_of (record_in words.now) }
{
    Summary {
        bytes: words[BYTES],
        bins: words[BINS],
        donor: Chunk(words[DONOR]),
        top: Chunk(words[TOP]),
        merge: words[MERGE] == 1,
        used: words[USED],
        patrol: Chunk(words[PATROL]),
    }
}

// All words of `from`, to where `at` says; they fit there.
// The library's copy_from_slice is not inlined: it made the archive a third larger.
fn copy(to: &mut [u32], at: usize, from: &[u32])
    requires { at + length from.now ≤ length to.old }
    ensures { to.new ≡ paste to.old at from.now (length from.now) }
{
    for (i, word) in from.iter().enumerate() {
        to[at + i] = *word;
    }
}

// By `copy`: the library's as_array ends in a trap, which tools/portable refuses.
pub fn unpack(words: &[u32; RECORD_WORDS]) -> Heap
    ensures { result ≡ record_in words.now }
{
    let mut sizes = [0; PLACES];
    let mut heads = [0; PLACES];
    let mut tails = [0; PLACES];
    copy(&mut sizes, 0, &words[SIZES..HEADS]);
    copy(&mut heads, 0, &words[HEADS..TAILS]);
    copy(&mut tails, 0, &words[TAILS..PATROL]);
    let Summary {
        bytes,
        bins,
        donor,
        top,
        merge,
        used,
        patrol,
    } = unpack_summary(words);
    Heap {
        bytes,
        bins,
        sizes,
        heads,
        tails,
        donor,
        top,
        merge,
        used,
        patrol,
    }
}

pub fn pack(heap: Heap) -> [u32; RECORD_WORDS]
    ensures { result ≡ record_out heap }
{
    let first = [
        heap.bytes,
        heap.bins,
        heap.donor.0,
        heap.top.0,
        u32::from(heap.merge),
        heap.used,
    ];
    let mut words = [0; RECORD_WORDS];
    copy(&mut words, 0, &first);
    copy(&mut words, SIZES, &heap.sizes);
    copy(&mut words, HEADS, &heap.heads);
    copy(&mut words, TAILS, &heap.tails);
    copy(&mut words, PATROL, &[heap.patrol.0]);
    words
}

#[tactic(auto, using(crate::proofs::ComplementLaws::complement_is), unfolding(crate::specs::Flat::answer_out, crate::specs::Flat::complement))]
pub fn answer_words(answer: Answer) -> [u32; ANSWER_WORDS]
    ensures { result ≡ answer_out answer }
{
    match answer {
        Answer::Done => [0, 0, 0, 0, 0],
        Answer::Granted(block, change) => [0, block.0, 0, change.cast_unsigned(), 0],
        Answer::Returned(change) => [0, 0, 0, change.cast_unsigned(), 0],
        Answer::Told(Some(value)) => [0, 0, value, 0, 0],
        Answer::Told(None) => [0, 0, 0, 0, 1],
        Answer::Counted(counts) => [0, counts.chunks, counts.ordinary, counts.used, counts.free],
        Answer::Refused(refusal) => [u32::from(refusal), 0, 0, 0, 0],
    }
}

// The answer alone, of a call that leaves the record as it was. A refusal is its number, since include/kruzhvela.h has it so.
#[tactic(auto, using(crate::proofs::HandedLaws::refusal_first))]
pub fn tell(said: Answer, answer: &mut [u32; ANSWER_WORDS]) -> u32
    ensures { (result ≡ refusal_out said) × (answer.new ≡ answer_out said) }
{
    *answer = answer_words(said);
    answer[0]
}

// A record that no setup and no call left, refused as a heap that fails: nothing but the answer is written.
pub fn refuse_record(answer: &mut [u32; ANSWER_WORDS]) -> u32
    ensures { (result ≡ 4) × (answer.new ≡ answer_out (Refused HeapFails)) }
{
    tell(Answer::Refused(Refusal::HeapFails), answer)
}

// A refusal leaves the record's words as they are.
// The record and the answer are two pointers in include/kruzhvela.h, and so two parameters of each function.
#[tactic(auto, unfolding(crate::specs::Handed::flat_after))]
pub fn hand_back(
    reply: Reply,
    state: &mut [u32; RECORD_WORDS],
    answer: &mut [u32; ANSWER_WORDS],
) -> u32
    ensures value { result ≡ refusal_out reply.answer }
    ensures answer_after { answer.new ≡ answer_out reply.answer }
    ensures state_after { state.new ≡ flat_after state.old reply.answer reply.heap }
{
    let refusal = tell(reply.answer, answer);
    if refusal == 0 {
        *state = pack(reply.heap);
    }
    refusal
}

// A call on the record that the words say, made and handed back to C.
pub fn make<F: FnOnce(&mut [u32], Heap) -> Reply>(
    region: &mut [u32],
    state: &mut [u32; RECORD_WORDS],
    answer: &mut [u32; ANSWER_WORDS],
    call: F,
) -> u32
    requires { F.IsAlwaysCallable call }
    ensures { (o : Outcome) → Makes F.FnOnce call region.old (record_in state.old) o → handed result answer.new state.new region.new ≡ handed_by region.old state.old o }
{
    if state[MERGE] > 1 {
        return refuse_record(answer);
    }
    let heap = unpack(state);
    let reply = call(region, heap);
    hand_back(reply, state, answer)
}

// The same of a call that leaves the record as it is: the answer alone is told.
pub fn ask<F: FnOnce(&mut [u32], Heap) -> Reply>(
    region: &mut [u32],
    state: &[u32; RECORD_WORDS],
    answer: &mut [u32; ANSWER_WORDS],
    call: F,
) -> u32
    requires { F.IsAlwaysCallable call }
    ensures { (o : Outcome) → o.heap ≡ record_in state.now → Makes F.FnOnce call region.old (record_in state.now) o → handed result answer.new state.now region.new ≡ handed_by region.old state.now o }
{
    if state[MERGE] > 1 {
        return refuse_record(answer);
    }
    let heap = unpack(state);
    let reply = call(region, heap);
    tell(reply.answer, answer)
}
