// A free chunk leaves its place or takes it: in the bin of its size, or out of bins as the donor or the top.
// Whether it was cut or joined is not known here.
#![tactic(auto)]

ghost use Rattle.std.specs.Prelude.{◌≡◌};
ghost use Rattle.books.specs.Books.{books};
ghost use Rattle.record.specs.Heap.{SameSlices};
ghost use Rattle.settling.specs.Settling.{leave_bin_m, put_in_bin_m, settle_m, settled_m};

use bins::{leave, put_between, slot_for};
use chain::is_ordinary;
use headers::write_no_bin;
use record::heap::{Ends, Summary};
use record::kinds::Kind;
use record::table::Table;
use region::Chunk;

// A free chunk that takes its place: what it becomes, where it starts, and its size.
#[derive(Clone, Copy)]
pub struct Arrival {
    pub becomes: Kind,
    pub chunk: Chunk,
    pub size: u32,
}

// A chunk leaves its bin, if the caller says that it is in one: the caller knows its kind.
#[tactic(auto, unfolding(crate::specs::Settling::leave_bin_m))]
pub fn leave_bin(region: &mut [u32], ends: &mut Ends<'_>, binned: bool, chunk: Chunk)
    ensures books_after { books region.new ends.new.heads.now ends.new.tails.now ≡ leave_bin_m (books region.old ends.old.heads.now ends.old.tails.now) binned chunk.0 }
    ensures same_slices { SameSlices ends.old ends.new }
{
    if binned {
        leave(region, ends, chunk);
    }
}

// Into the bin of its size. A chunk smaller than the first bin, which no heap that passes has, is put nowhere.
#[tactic(auto, using(record::proofs::TableLaws::bin_is), unfolding(crate::specs::Settling::put_in_bin_m, crate::specs::Settling::put_binned_m, bins::specs::Bins::put_into_m))]
pub fn put_in_bin(
    region: &mut [u32],
    ends: &mut Ends<'_>,
    table: Table<'_>,
    chunk: Chunk,
    size: u32,
)
    ensures books_after { books region.new ends.new.heads.now ends.new.tails.now ≡ put_in_bin_m (books region.old ends.old.heads.now ends.old.tails.now) table.entry.sizes.now chunk.0 size }
    ensures same_slices { SameSlices ends.old ends.new }
{
    let Some(bin) = table.bin_of(size) else {
        return;
    };
    let small = table.in_small_array(bin);
    let slot = slot_for(region, ends, small, bin, size);
    put_between(region, ends, slot, chunk);
}

// An ordinary chunk is put into its bin; of donor and top the bin words are set to 0.
#[tactic(auto, unfolding(crate::specs::Settling::settle_m))]
pub fn settle(region: &mut [u32], ends: &mut Ends<'_>, table: Table<'_>, arrival: Arrival)
    ensures books_after { books region.new ends.new.heads.now ends.new.tails.now ≡ settle_m (books region.old ends.old.heads.now ends.old.tails.now) table.entry.sizes.now arrival }
    ensures same_slices { SameSlices ends.old ends.new }
{
    let becomes = arrival.becomes;
    if is_ordinary(becomes) {
        put_in_bin(region, ends, table, arrival.chunk, arrival.size);
    } else {
        write_no_bin(region, arrival.chunk);
    }
}

// The summary, once the chunk is in its place: it may be the new donor or the new top.
pub fn settled(summary: Summary, becomes: Kind, chunk: Chunk) -> Summary
    ensures { result ≡ settled_m summary becomes chunk.0 }
{
    match becomes {
        Kind::Donor => summary.with_donor(chunk),
        Kind::Top => summary.with_top(chunk),
        _ => summary,
    }
}
