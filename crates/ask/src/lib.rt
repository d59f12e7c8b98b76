// The questions about a chunk and about a bin. That the heap passes the check is not asked here.
// A chunk is found on the chain; nothing is written.
#![tactic(auto)]

ghost use Rattle.std.specs.Prelude.{◌≡◌, length};
ghost use Rattle.rules.specs.Shape.{members_from};
ghost use Rattle.ask.specs.Questions.{ask_bin_m, ask_chunk_m};

use bins::list_end;
use details::{link_told, of_chunk};
use record::answers::Refusal;
use record::heap::Summary;
use record::questions::{ASK_CHUNK, BinQuestion, ChunkQuestion};
use record::table::Table;
use region::{Block, Chunk, NEXT_IN_BIN, word};
use seek::{find_block, find_chunk};

#[tactic(auto, unfolding(crate::specs::Questions::ask_chunk_m, crate::specs::Questions::told_of, crate::specs::Questions::holder_of))]
pub fn ask_chunk(
    region: &[u32],
    table: Table<'_>,
    summary: Summary,
    question: u32,
    place: u32,
) -> Result<Option<u32>, Refusal>
    ensures { result ≡ ask_chunk_m region.now table.entry.sizes.now summary question place }
{
    if question == ASK_CHUNK {
        let holder = find_block(region, summary.bytes, Block(place)).ok_or(Refusal::NotThere)?;
        return Ok(Some(holder.chunk.0));
    }
    // A number that names no question is refused; `of_chunk` reads the number itself.
    ChunkQuestion::try_from(question)?;
    let found = find_chunk(region, summary.bytes, place).ok_or(Refusal::NotThere)?;
    Ok(of_chunk(region, table, summary, question, found))
}

// Damaged links might form a ring: at most so many steps are taken.
fn count_members(region: &[u32], first: u32, steps: u32) -> u32
    ensures { result ≡ length (members_from steps region.now first) }
{
    let mut at = first;
    for met in 0..steps {
        if at == 0 {
            return met;
        }
        at = word(region, Chunk(at), NEXT_IN_BIN);
    }
    steps
}

#[tactic(auto, unfolding(crate::specs::Questions::ask_bin_m, crate::specs::Questions::list_told))]
pub fn ask_bin(
    region: &[u32],
    heads: &[u32],
    tails: &[u32],
    summary: Summary,
    question: u32,
    bin: u32,
) -> Result<Option<u32>, Refusal>
    ensures { result ≡ ask_bin_m region.now heads.now tails.now summary question bin }
{
    if summary.bins <= bin {
        return Err(Refusal::NotThere);
    }
    let first = list_end(heads, bin as usize);
    let last = list_end(tails, bin as usize);
    match BinQuestion::try_from(question)? {
        BinQuestion::Count => Ok(Some(count_members(region, first, summary.bytes))),
        BinQuestion::First => Ok(link_told(first)),
        BinQuestion::Last => Ok(link_told(last)),
    }
}
