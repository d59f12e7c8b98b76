// The bins' free lists, which are doubly linked: leaving one, finding a place in one and putting a chunk there, first fit, the next bin that is
// not empty.
// Head and tail of a bin stand in the two slices that `Ends` lends, the links in the region. Which bin a chunk belongs in is not known here.
#![tactic(auto)]

ghost use Rattle.std.specs.Prelude.{◌≡◌, ◌*◌, ◌%◌, slice_index, slice_set};
ghost use Rattle.books.specs.Books.{books};
ghost use Rattle.record.specs.Heap.{SameSlices};
ghost use Rattle.bins.specs.Bins.{side, chunk_or_none, link_m, leave_m, put_m, first_fit_m, next_occupied_m, member_before_m, slot_m, steps};

use record::heap::{Ends, PLACES};
use region::{BIN, BIN_FACTOR, Chunk, MOST_WORDS, NEXT_IN_BIN, PREVIOUS_IN_BIN, SIZE, store, word};

// More steps along a list than the largest region has chunks, each of which has two words at least: damaged links might form a ring.
const STEPS: u32 = MOST_WORDS as u32 / 2;

// A place in a bin's list: between the chunks at `before` and at `after`, or 0 where the list ends. They are the words that the links get.
#[derive(Clone, Copy)]
pub struct Slot {
    pub bin: usize,
    pub before: u32,
    pub after: u32,
}

// An end of the list of a bin, from the slice of all heads or of all tails. A number past the last bin has no list: its ends read 0.
pub fn list_end(ends: &[u32], bin: usize) -> u32
    ensures { result ≡ slice_index ends.now bin }
{
    if bin < ends.len() { ends[bin] } else { 0 }
}

// A number past the last bin has no list: nothing is written.
pub fn set_list_end(ends: &mut [u32], bin: usize, place: u32)
    ensures { ends.new ≡ slice_set ends.old bin place }
{
    if bin < ends.len() {
        ends[bin] = place;
    }
}

// There are at most 32 bins, so that the remainder changes no bin's number. With it the product fits, whatever the caller hands in.
pub fn bin_word(bin: usize) -> u32
    ensures { result ≡ bin % 32 * 8 }
{
    (bin % PLACES) as u32 * BIN_FACTOR
}

// The start chunk, at 0, is in no list: a link from 0 is the end of the list.
#[tactic(auto, unfolding(crate::specs::Bins::link_m))]
fn link(region: &mut [u32], ends: &mut [u32], bin: usize, from: u32, number: u32, to: u32)
    ensures { side region.new ends.new ≡ link_m (side region.old ends.old) bin from number to }
{
    if from == 0 {
        set_list_end(ends, bin, to);
        return;
    }
    store(region, Chunk(from), number, to);
}

// The chunk's own words stay as they are: the caller clears them or puts it elsewhere.
#[tactic(auto, unfolding(crate::specs::Bins::leave_m))]
pub fn leave(region: &mut [u32], ends: &mut Ends<'_>, chunk: Chunk)
    ensures books_after { books region.new ends.new.heads.now ends.new.tails.now ≡ leave_m (books region.old ends.old.heads.now ends.old.tails.now) chunk.0 }
    ensures same_slices { SameSlices ends.old ends.new }
{
    let after = word(region, chunk, NEXT_IN_BIN);
    let before = word(region, chunk, PREVIOUS_IN_BIN);
    let bin = (word(region, chunk, BIN) / BIN_FACTOR) as usize;
    link(region, ends.heads, bin, before, NEXT_IN_BIN, after);
    link(region, ends.tails, bin, after, PREVIOUS_IN_BIN, before);
}

#[tactic(auto, unfolding(crate::specs::Bins::put_m))]
pub fn put_between(region: &mut [u32], ends: &mut Ends<'_>, slot: Slot, chunk: Chunk)
    ensures books_after { books region.new ends.new.heads.now ends.new.tails.now ≡ put_m (books region.old ends.old.heads.now ends.old.tails.now) slot chunk.0 }
    ensures same_slices { SameSlices ends.old ends.new }
{
    let Slot { bin, before, after } = slot;
    let at = chunk.0;
    link(region, ends.heads, bin, before, NEXT_IN_BIN, at);
    store(region, chunk, PREVIOUS_IN_BIN, before);
    store(region, chunk, NEXT_IN_BIN, after);
    link(region, ends.tails, bin, after, PREVIOUS_IN_BIN, at);
    store(region, chunk, BIN, bin_word(bin));
}

// First fit: the first chunk of a list, in its order, that has the need.
pub fn first_fit(region: &[u32], first: Chunk, need: u32) -> Option<Chunk>
    ensures { result ≡ chunk_or_none (first_fit_m steps region.now need first.0) }
{
    let mut at = first.0;
    for _ in 0..STEPS {
        if at == 0 {
            return None;
        }
        if word(region, Chunk(at), SIZE) >= need {
            return Some(Chunk(at));
        }
        at = word(region, Chunk(at), NEXT_IN_BIN);
    }
    None
}

// The member before the one at `at`; before the end of the list, at 0, stands the tail.
#[tactic(auto, unfolding(crate::specs::Bins::member_before_m))]
fn member_before(region: &[u32], tails: &[u32], bin: usize, at: u32) -> u32
    ensures { result ≡ member_before_m region.now tails.now bin at }
{
    if at == 0 {
        return list_end(tails, bin);
    }
    word(region, Chunk(at), PREVIOUS_IN_BIN)
}

// Where a chunk of this size goes in a bin: at the head of a bin of the small array, which is last in, first out; in any other before the first
// larger member, and so behind those of equal size. `small` says which the bin is. The first larger member is the first fit for one byte more.
#[tactic(auto, unfolding(crate::specs::Bins::slot_m))]
pub fn slot_for(region: &[u32], ends: &Ends<'_>, small: bool, bin: usize, size: u32) -> Slot
    ensures { result ≡ slot_m (books region.now ends.now.heads.now ends.now.tails.now) small bin size }
{
    let head = list_end(ends.heads, bin);
    if small {
        return Slot {
            bin,
            before: 0,
            after: head,
        };
    }
    let larger = first_fit(region, Chunk(head), size.wrapping_add(1));
    let after = larger.map_or(0, |chunk| chunk.0);
    Slot {
        bin,
        before: member_before(region, ends.tails, bin, after),
        after,
    }
}

// The head of the next bin above this one that is not empty: each chunk of it is larger than every need of this bin.
pub fn next_occupied(heads: &[u32], above: usize, bins: usize) -> Option<Chunk>
    ensures { result ≡ chunk_or_none (next_occupied_m heads.now above bins) }
{
    if bins <= above {
        return None;
    }
    for bin in above + 1..bins {
        let head = list_end(heads, bin);
        if head != 0 {
            return Some(Chunk(head));
        }
    }
    None
}
