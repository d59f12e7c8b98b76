// A block is granted, or refused for room, on a heap that passed the check: its room is chosen and cut, and the block is cleared or
// left as found. The bins' ends are lent, and the summary is handed back beside the answer: the caller sets the record.
#![tactic(auto)]

ghost use Rattle.std.specs.Prelude.{◌≡◌};
ghost use Rattle.books.specs.Books.{books};
ghost use Rattle.record.specs.Heap.{SameSlices};
ghost use Rattle.replies.specs.Replies.{concluded};
ghost use Rattle.supply.specs.Supply.{filled_m, supply_m};

use blocks::clear_block;
use grant::choose::choose;
use grant::serve::{Order, serve};
use record::answers::{Answer, Refusal};
use record::heap::{Ends, Summary};
use record::table::Table;
use region::{Chunk, block_of};
use replies::{Answered, change};

// A chunk of so many bytes, its block cleared or as found.
#[derive(Clone, Copy)]
pub struct Want {
    pub need: u32,
    pub clears: bool,
}

// The block of a chunk of so many bytes.
#[tactic(auto, unfolding(crate::specs::Supply::filled_m))]
fn fill(region: &mut [u32], clears: bool, chunk: Chunk, size: u32)
    ensures { region.new ≡ filled_m region.old clears chunk.0 size }
{
    if clears {
        let end = chunk.0.wrapping_add(size);
        clear_block(region, block_of(chunk), end);
    }
}

#[tactic(auto, using(replies::proofs::ChangeLaws::change_kept), unfolding(crate::specs::Supply::supply_m, crate::specs::Supply::supplied_m))]
pub fn supply(
    region: &mut [u32],
    ends: &mut Ends<'_>,
    table: Table<'_>,
    summary: Summary,
    want: Want,
) -> Result<Answered, Refusal>
    ensures outcome { concluded (books region.new ends.new.heads.now ends.new.tails.now) result ≡ supply_m (books region.old ends.old.heads.now ends.old.tails.now) table.entry.sizes.now summary want }
    ensures same_slices { SameSlices ends.old ends.new }
{
    let need = want.need;
    // Lent anew, so that the proof has what the heads are after `choose`: as they were.
    let heads = &mut *ends.heads;
    let source = choose(region, table, heads, summary, need).ok_or(Refusal::NoRoom)?;
    let order = Order {
        source: Some(source),
        need,
    };
    let grant = serve(region, ends, table, summary, order);
    fill(region, want.clears, grant.chunk, grant.size);
    Ok(Answered {
        answer: Answer::Granted(block_of(grant.chunk), change(0, grant.size)),
        summary: grant.summary,
    })
}
