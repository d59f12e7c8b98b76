// A live block gets another size: its chunk keeps the need and gives the tail back, or the block moves, or nothing changes.
// The block was found on the chain before.
#![tactic(auto)]

ghost use Rattle.std.specs.Prelude.{◌≡◌};
ghost use Rattle.resize.specs.Resize.{move_m, reread_m, resize_m, shrink_m};
ghost use Rattle.rules.specs.Statements.{replied};

use blocks::copy_block;
use grant::choose::choose;
use grant::serve::{Order, serve};
use headers::distance;
use record::answers::{Answer, Refusal, Reply};
use record::heap::{Ends, Heap};
use record::table::Table;
use region::{ALIGNMENT, BACKWARD, Chunk, FORWARD, LEAST, block_of, store, word};
use release::give::give_up;
use replies::{change, refused};
use seek::Place;

// The chunk keeps its lowest bytes and gives the tail back. Of what is kept the forward link alone is written.
// Neither this nor `move_block` is inlined: else the copies of the record that both make lie on the stack of a reallocate that allocates, the
// deepest call.
#[inline(never)]
#[tactic(auto, using(replies::proofs::ChangeLaws::change_kept), unfolding(crate::specs::Resize::shrink_m, release::specs::Give::given_up_m))]
fn shrink(region: &mut [u32], table: Table<'_>, heap: Heap, place: Place, need: u32) -> Reply
    ensures { replied result region.new ≡ shrink_m region.old table.entry.sizes.now heap place need }
{
    let chunk = place.chunk;
    let rest = chunk.0.wrapping_add(need);
    store(region, chunk, FORWARD, rest);
    let tail = Place {
        before: chunk,
        chunk: Chunk(rest),
        ..place
    };
    let mut heads = heap.heads;
    let mut tails = heap.tails;
    let mut ends = Ends {
        heads: &mut heads,
        tails: &mut tails,
    };
    let summary = give_up(region, &mut ends, table, heap.summary(), tail);
    let size = distance(chunk.0, place.end);
    Reply {
        answer: Answer::Granted(block_of(chunk), change(size, need)),
        heap: heap.with_books(heads, tails, summary),
    }
}

// The place of the old chunk after a grant: the chunk below it may have been cut, so that its backward link is read again.
#[tactic(auto, unfolding(crate::specs::Resize::reread_m))]
fn with_link_reread(region: &[u32], place: Place) -> Place
    ensures { result ≡ reread_m region.now place }
{
    let link = word(region, place.chunk, BACKWARD);
    Place {
        before: Chunk(link - link % ALIGNMENT),
        ..place
    }
}

// A block is allocated, the whole old block is copied to it, and the old one is freed.
#[inline(never)]
#[tactic(auto, using(replies::proofs::ChangeLaws::change_kept), unfolding(crate::specs::Resize::move_m, crate::specs::Resize::moved_m, grant::specs::Serve::served_m, release::specs::Give::given_up_m))]
fn move_block(region: &mut [u32], table: Table<'_>, heap: Heap, place: Place, need: u32) -> Reply
    ensures { replied result region.new ≡ move_m region.old table.entry.sizes.now heap place need }
{
    let summary = heap.summary();
    let mut heads = heap.heads;
    let mut tails = heap.tails;
    let Some(source) = choose(region, table, &heads, summary, need) else {
        return refused(heap, Refusal::NoRoom);
    };
    let mut ends = Ends {
        heads: &mut heads,
        tails: &mut tails,
    };
    let order = Order {
        source: Some(source),
        need,
    };
    let grant = serve(region, &mut ends, table, summary, order);
    let size = distance(place.chunk.0, place.end);
    copy_block(region, place.chunk, grant.chunk, size / 4);
    let old = with_link_reread(region, place);
    let freed = give_up(region, &mut ends, table, grant.summary, old);
    Reply {
        answer: Answer::Granted(block_of(grant.chunk), change(size, grant.size)),
        heap: heap.with_books(heads, tails, freed),
    }
}

#[tactic(auto, using(replies::proofs::ChangeLaws::change_kept), unfolding(crate::specs::Resize::resize_m))]
pub fn resize(region: &mut [u32], table: Table<'_>, heap: Heap, place: Place, need: u32) -> Reply
    ensures { replied result region.new ≡ resize_m region.old table.entry.sizes.now heap place need }
{
    let size = distance(place.chunk.0, place.end);
    if size < need {
        return move_block(region, table, heap, place, need);
    }
    if need as u64 + LEAST as u64 <= size as u64 {
        return shrink(region, table, heap, place, need);
    }
    Reply {
        answer: Answer::Granted(block_of(place.chunk), change(size, size)),
        heap,
    }
}
