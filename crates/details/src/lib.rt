// What one chunk tells: of itself and its neighbours on the chain, and as a member of its bin; a value, or that there is none.
// Where the chunk is was found on the chain before. Nothing is written.
#![tactic(auto)]

ghost use Rattle.std.specs.Prelude.{◌≡◌};
ghost use Rattle.details.specs.Details.{asked, link_told_m, member_m, of_chunk_m};
ghost use Rattle.record.specs.Table.{bin_of};
ghost use Rattle.seek.specs.Seek.{size_in};

use chain::{is_ordinary, kind_of};
use record::heap::Summary;
use record::questions::ChunkQuestion;
use record::table::Table;
use region::{Chunk, NEXT_IN_BIN, PREVIOUS_IN_BIN, block_of, word};
use seek::{Place, has_live_block};

// A place that was found ends above its chunk, so that the difference is its size.
fn size_of(place: Place) -> u32
    ensures { result ≡ size_in place }
{
    place.end.saturating_sub(place.chunk.0)
}

// The number of the bin of a size.
#[tactic(auto, using(record::proofs::TableLaws::bin_is))]
fn bin_told(table: Table<'_>, size: u32) -> Option<u32>
    ensures { result ≡ bin_of table.entry.sizes.now size }
{
    let bin = table.bin_of(size)?;
    Some(bin as u32)
}

// What a bin link, a head or a tail names. There 0 is none: the chunk at 0 is the start, which is in no bin.
#[tactic(auto, unfolding(crate::specs::Details::link_told_m))]
pub fn link_told(link: u32) -> Option<u32>
    ensures { result ≡ link_told_m link }
{
    (link != 0).then_some(link)
}

// The chunk as a member of a bin. A chunk in use, the donor, the top and the ends are in none.
fn member(summary: Summary, place: Place) -> Option<Chunk>
    ensures { result ≡ member_m summary place }
{
    let kind = kind_of(summary, place.chunk, place.flags);
    is_ordinary(kind).then_some(place.chunk)
}

// Takes any number, and has an answer for each: one that names no question tells the type. The caller has refused such a number before.
#[tactic(auto, unfolding(crate::specs::Details::of_chunk_m))]
pub fn of_chunk(
    region: &[u32],
    table: Table<'_>,
    summary: Summary,
    question: u32,
    place: Place,
) -> Option<u32>
    ensures { result ≡ of_chunk_m region.now table.entry.sizes.now summary (asked question) place }
{
    match ChunkQuestion::try_from(question).unwrap_or(ChunkQuestion::Type) {
        ChunkQuestion::Bin => {
            member(summary, place)?;
            bin_told(table, size_of(place))
        }
        ChunkQuestion::Block => {
            let live = has_live_block(summary.bytes, place.chunk, place.flags);
            live.then_some(block_of(place.chunk).0)
        }
        ChunkQuestion::Next => (place.end != summary.bytes).then_some(place.end),
        ChunkQuestion::NextInBin => {
            link_told(word(region, member(summary, place)?, NEXT_IN_BIN))
        }
        // The start has none before it; the chunk above it has the start, which is at 0.
        ChunkQuestion::Previous => (place.chunk.0 != 0).then_some(place.before.0),
        ChunkQuestion::PreviousInBin => {
            link_told(word(region, member(summary, place)?, PREVIOUS_IN_BIN))
        }
        ChunkQuestion::Size => Some(size_of(place)),
        ChunkQuestion::Type => Some(place.flags),
    }
}
