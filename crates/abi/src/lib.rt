// The calls for C, each with the record and the answer as flat words; the crate abi_c exports them, and include/kruzhvela.h declares them.
// What a call does is in the crate heap, and how words say a record in flat. The check and the patrol are called in crates of their own
// (audit, patrol), since they need not have the record whole. The record's words are called `state` here: `record` is a word of the
// language of the proofs.
#![tactic(auto)]

ghost use Rattle.std.specs.Prelude.{◌≡◌};
ghost use Rattle.abi.specs.Flat.{record_in};
ghost use Rattle.abi.specs.Handed.{handed, handed_by, opened_by, patrolled_by};
ghost use Rattle.rules.specs.Allocate.{allocate, allocate_cleared};
ghost use Rattle.rules.specs.Ask.{ask_bin, ask_chunk};
ghost use Rattle.rules.specs.Free.{free};
ghost use Rattle.rules.specs.Merge.{check, set_merge};
ghost use Rattle.rules.specs.Patrol.{patrol};
ghost use Rattle.rules.specs.Reallocate.{reallocate};
ghost use Rattle.rules.specs.Setup.{setup};

use crate::flat::{
    BYTES, HEADS, MERGE, PATROL, SIZES, TAILS, ask, hand_back, make, pack, refuse_record, tell,
    unpack, unpack_summary,
};
use audit::arrays::Arrays;
use audit::{answer_of, look};
use patrol::tour;
use record::answers::Answer;
use region::{Block, Chunk};

mod flat;

// The number of words of a flat record and of a flat answer. The header for C and the wrapper for Rust have constants of their own,
// since a constant of Rattle is not part of the archive.
pub const RECORD_WORDS: usize = PATROL + 1;

pub const ANSWER_WORDS: usize = 5;

// What the record was before is not read.
pub fn kz_setup(
    region: &mut [u32],
    table: &[u32],
    donor: u32,
    merge: bool,
    state: &mut [u32; RECORD_WORDS],
    answer: &mut [u32; ANSWER_WORDS],
) -> u32
    ensures { handed result answer.new state.new region.new ≡ opened_by region.old (setup region.old table.now donor merge) }
{
    let reply = heap::setup(region, table, donor, merge);
    *state = pack(reply.heap);
    tell(reply.answer, answer)
}

pub fn kz_allocate(
    region: &mut [u32],
    state: &mut [u32; RECORD_WORDS],
    z: u32,
    answer: &mut [u32; ANSWER_WORDS],
) -> u32
    ensures { handed result answer.new state.new region.new ≡ handed_by region.old state.old (allocate region.old (record_in state.old) z) }
{
    make(
        region,
        state,
        answer,
        |region, heap| heap::allocate(region, heap, z),
    )
}

pub fn kz_allocate_cleared(
    region: &mut [u32],
    state: &mut [u32; RECORD_WORDS],
    count: u32,
    size: u32,
    answer: &mut [u32; ANSWER_WORDS],
) -> u32
    ensures { handed result answer.new state.new region.new ≡ handed_by region.old state.old (allocate_cleared region.old (record_in state.old) count size) }
{
    make(
        region,
        state,
        answer,
        |region, heap| heap::allocate_cleared(region, heap, count, size),
    )
}

// By `make` it would take 550 bytes more of stack, and kz_reallocate 770: the reply is copied once more.
pub fn kz_free(
    region: &mut [u32],
    state: &mut [u32; RECORD_WORDS],
    block: u32,
    answer: &mut [u32; ANSWER_WORDS],
) -> u32
    ensures { handed result answer.new state.new region.new ≡ handed_by region.old state.old (free region.old (record_in state.old) block) }
{
    if state[MERGE] > 1 {
        return refuse_record(answer);
    }
    let heap = unpack(state);
    let reply = heap::free(region, heap, Block(block));
    hand_back(reply, state, answer)
}

pub fn kz_reallocate(
    region: &mut [u32],
    state: &mut [u32; RECORD_WORDS],
    block: u32,
    z: u32,
    answer: &mut [u32; ANSWER_WORDS],
) -> u32
    ensures { handed result answer.new state.new region.new ≡ handed_by region.old state.old (reallocate region.old (record_in state.old) block z) }
{
    if state[MERGE] > 1 {
        return refuse_record(answer);
    }
    let heap = unpack(state);
    let reply = heap::reallocate(region, heap, Block(block), z);
    hand_back(reply, state, answer)
}

pub fn kz_set_merge(
    region: &mut [u32],
    state: &mut [u32; RECORD_WORDS],
    on: bool,
    answer: &mut [u32; ANSWER_WORDS],
) -> u32
    ensures { handed result answer.new state.new region.new ≡ handed_by region.old state.old (set_merge region.old (record_in state.old) on) }
{
    make(
        region,
        state,
        answer,
        |region, heap| heap::set_merge(region, heap, on),
    )
}

// The check is lent the record's arrays where they stand in the words, so that it copies none of them.
pub fn kz_check(
    region: &mut [u32],
    state: &mut [u32; RECORD_WORDS],
    answer: &mut [u32; ANSWER_WORDS],
) -> u32
    ensures { handed result answer.new state.new region.new ≡ handed_by region.old state.old (check region.old (record_in state.old)) }
{
    if state[MERGE] > 1 {
        return refuse_record(answer);
    }
    let summary = unpack_summary(state);
    let words = &state[..];
    let arrays = Arrays {
        sizes: &words[SIZES..HEADS],
        heads: &words[HEADS..TAILS],
        tails: &words[TAILS..PATROL],
    };
    let found = look(region, summary, arrays);
    tell(answer_of(found), answer)
}

pub fn kz_ask_chunk(
    region: &mut [u32],
    state: &mut [u32; RECORD_WORDS],
    question: u32,
    place: u32,
    answer: &mut [u32; ANSWER_WORDS],
) -> u32
    ensures { handed result answer.new state.new region.new ≡ handed_by region.old state.old (ask_chunk region.old (record_in state.old) question place) }
{
    ask(
        region,
        state,
        answer,
        |region, heap| heap::ask_chunk(region, heap, question, place),
    )
}

pub fn kz_ask_bin(
    region: &mut [u32],
    state: &mut [u32; RECORD_WORDS],
    question: u32,
    bin: u32,
    answer: &mut [u32; ANSWER_WORDS],
) -> u32
    ensures { handed result answer.new state.new region.new ≡ handed_by region.old state.old (ask_bin region.old (record_in state.old) question bin) }
{
    ask(
        region,
        state,
        answer,
        |region, heap| heap::ask_bin(region, heap, question, bin),
    )
}

// Of the record the patrol reads the heap bytes and its own place, and writes its place: no other word decides or changes.
pub fn kz_patrol(
    region: &mut [u32],
    state: &mut [u32; RECORD_WORDS],
    chunks: u32,
    answer: &mut [u32; ANSWER_WORDS],
) -> u32
    ensures { handed result answer.new state.new region.new ≡ patrolled_by region.old state.old (patrol region.old (record_in state.old) chunks) }
{
    match tour(region, state[BYTES], Chunk(state[PATROL]), chunks) {
        Ok(toured) => {
            state[PATROL] = toured.place.0;
            tell(toured.answer, answer)
        }
        Err(why) => tell(Answer::Refused(why), answer),
    }
}
