// The archive for C: each function of the crate abi under its name, with its contract. include/kruzhvela.h declares them, so that each
// stands here by itself.
#![tactic(auto)]

ghost use Rattle.std.specs.Prelude.{◌≡◌};
ghost use Rattle.abi.specs.Flat.{record_in};
ghost use Rattle.abi.specs.Handed.{handed, handed_by, opened_by, patrolled_by};
ghost use Rattle.rules.specs.Allocate.{allocate, allocate_cleared};
ghost use Rattle.rules.specs.Ask.{ask_bin, ask_chunk};
ghost use Rattle.rules.specs.Free.{free};
ghost use Rattle.rules.specs.Merge.{check, set_merge};
ghost use Rattle.rules.specs.Patrol.{patrol};
ghost use Rattle.rules.specs.Reallocate.{reallocate};
ghost use Rattle.rules.specs.Setup.{setup};

use abi::{ANSWER_WORDS, RECORD_WORDS};

#[unsafe(no_mangle)]
pub extern "C" fn kz_setup(
    region: &mut [u32],
    table: &[u32],
    donor: u32,
    merge: bool,
    state: &mut [u32; RECORD_WORDS],
    answer: &mut [u32; ANSWER_WORDS],
) -> u32
    ensures { handed result answer.new state.new region.new ≡ opened_by region.old (setup region.old table.now donor merge) }
{
    abi::kz_setup(region, table, donor, merge, state, answer)
}

#[unsafe(no_mangle)]
pub extern "C" fn kz_allocate(
    region: &mut [u32],
    state: &mut [u32; RECORD_WORDS],
    z: u32,
    answer: &mut [u32; ANSWER_WORDS],
) -> u32
    ensures { handed result answer.new state.new region.new ≡ handed_by region.old state.old (allocate region.old (record_in state.old) z) }
{
    abi::kz_allocate(region, state, z, answer)
}

#[unsafe(no_mangle)]
pub extern "C" fn kz_allocate_cleared(
    region: &mut [u32],
    state: &mut [u32; RECORD_WORDS],
    count: u32,
    size: u32,
    answer: &mut [u32; ANSWER_WORDS],
) -> u32
    ensures { handed result answer.new state.new region.new ≡ handed_by region.old state.old (allocate_cleared region.old (record_in state.old) count size) }
{
    abi::kz_allocate_cleared(region, state, count, size, answer)
}

#[unsafe(no_mangle)]
pub extern "C" fn kz_free(
    region: &mut [u32],
    state: &mut [u32; RECORD_WORDS],
    block: u32,
    answer: &mut [u32; ANSWER_WORDS],
) -> u32
    ensures { handed result answer.new state.new region.new ≡ handed_by region.old state.old (free region.old (record_in state.old) block) }
{
    abi::kz_free(region, state, block, answer)
}

#[unsafe(no_mangle)]
pub extern "C" fn kz_reallocate(
    region: &mut [u32],
    state: &mut [u32; RECORD_WORDS],
    block: u32,
    z: u32,
    answer: &mut [u32; ANSWER_WORDS],
) -> u32
    ensures { handed result answer.new state.new region.new ≡ handed_by region.old state.old (reallocate region.old (record_in state.old) block z) }
{
    abi::kz_reallocate(region, state, block, z, answer)
}

#[unsafe(no_mangle)]
pub extern "C" fn kz_set_merge(
    region: &mut [u32],
    state: &mut [u32; RECORD_WORDS],
    on: bool,
    answer: &mut [u32; ANSWER_WORDS],
) -> u32
    ensures { handed result answer.new state.new region.new ≡ handed_by region.old state.old (set_merge region.old (record_in state.old) on) }
{
    abi::kz_set_merge(region, state, on, answer)
}

#[unsafe(no_mangle)]
pub extern "C" fn kz_check(
    region: &mut [u32],
    state: &mut [u32; RECORD_WORDS],
    answer: &mut [u32; ANSWER_WORDS],
) -> u32
    ensures { handed result answer.new state.new region.new ≡ handed_by region.old state.old (check region.old (record_in state.old)) }
{
    abi::kz_check(region, state, answer)
}

#[unsafe(no_mangle)]
pub extern "C" fn kz_ask_chunk(
    region: &mut [u32],
    state: &mut [u32; RECORD_WORDS],
    question: u32,
    place: u32,
    answer: &mut [u32; ANSWER_WORDS],
) -> u32
    ensures { handed result answer.new state.new region.new ≡ handed_by region.old state.old (ask_chunk region.old (record_in state.old) question place) }
{
    abi::kz_ask_chunk(region, state, question, place, answer)
}

#[unsafe(no_mangle)]
pub extern "C" fn kz_ask_bin(
    region: &mut [u32],
    state: &mut [u32; RECORD_WORDS],
    question: u32,
    bin: u32,
    answer: &mut [u32; ANSWER_WORDS],
) -> u32
    ensures { handed result answer.new state.new region.new ≡ handed_by region.old state.old (ask_bin region.old (record_in state.old) question bin) }
{
    abi::kz_ask_bin(region, state, question, bin, answer)
}

#[unsafe(no_mangle)]
pub extern "C" fn kz_patrol(
    region: &mut [u32],
    state: &mut [u32; RECORD_WORDS],
    chunks: u32,
    answer: &mut [u32; ANSWER_WORDS],
) -> u32
    ensures { handed result answer.new state.new region.new ≡ patrolled_by region.old state.old (patrol region.old (record_in state.old) chunks) }
{
    abi::kz_patrol(region, state, chunks, answer)
}
