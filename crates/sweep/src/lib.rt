// The walk of the bins' lists: each member must be marked. The marks are only read: no chunk comes twice in a list, since its backward
// bin link names one chunk before it, and none is in two lists, since its size belongs to one bin.
// The marks were made by the walk of the chain, in the crate `survey`; the chain itself is not looked at here.
#![tactic(auto)]

ghost use Rattle.std.specs.Prelude.{◌≡◌, ◌+◌, ◌-◌, ◌/◌, ◌^◌, ◌<◌, ◌≤◌, length, nat_lt};
ghost use Rattle.chain.specs.Length.{Lent};
ghost use Rattle.region.specs.Words.{word, size, bin};
ghost use Rattle.sweep.specs.Sweep.{sizes_m, says_listed_m, NextListed, SweptIs, SweepIs};

use bins::bin_word;
use marks::{Marks, number_of};
use record::table::Table;
use region::{ALIGNMENT, BIN, Chunk, LEAST, NEXT_IN_BIN, PREVIOUS_IN_BIN, SIZE};

// A header takes three times 8 bytes: a chunk with a number this far below the end, or less, has no room for one.
const BELOW_END: u32 = LEAST / ALIGNMENT - 1;

// What a bin asks of the words of a member: its bin word, and a size from `least` to `most`. Along a list `least` is the size of the member
// before, so that no member is smaller than that one. So the last size is the greatest, and it alone is compared with `most`. The rules ask for
// this order outside the small array only; the members of a small bin have one size, so that they are in order anyway.
#[derive(Clone, Copy)]
pub struct Sizes {
    pub word: u32,
    pub least: u32,
    pub most: u32,
}

// What it asks of the first member. The table is read once for a list, not for each member. No bin follows the last one, and so every word
// from its size on is one of its sizes.
fn sizes_of(table: Table<'_>, bin: usize) -> Sizes
    requires { bin < length table.sizes.now }
    ensures value { result ≡ sizes_m table.entry.sizes.now bin }
    ensures least_le_most { result.least ≤ result.most }
{
    let sizes = table.sizes;
    let next = bin + 1;
    Sizes {
        word: bin_word(bin),
        least: sizes[bin],
        most: if next < sizes.len() {
            sizes[next] - 1
        } else {
            u32::MAX
        },
    }
}

// The place of a member by its number: a multiple of 8 with a whole header inside the heap. Behind this test its words and its mark need no
// test of bounds.
fn is_placed(number: u32, bytes: u32) -> bool
    requires { 16 ≤ bytes }
    ensures { result ≡ nat_lt number (bytes / 8 - 2) }
{
    number < bytes / ALIGNMENT - BELOW_END
}

// The words of a member: its bin word and its backward bin link are right, and it is not smaller than the member before.
#[tactic(auto, unfolding(crate::specs::Sweep::says_listed_m, region::specs::Words::word))]
fn is_listed(region: &[u32], sizes: Sizes, before: u32, chunk: Chunk) -> bool
    requires { chunk.0 / 4 + bin < length region.now }
    ensures value { result ≡ says_listed_m region.now sizes before chunk.0 }
    ensures size_bound { word region.now chunk.0 size < 2 ^ 32 }
{
    let i = (chunk.0 / 4) as usize;
    let size = region[i + SIZE as usize];
    region[i + BIN as usize] == sizes.word
        && region[i + PREVIOUS_IN_BIN as usize] == before
        && sizes.least <= size
}

// A region with the marks that the walk of the chain made. Its words are those of the heap bytes.
#[derive(Clone, Copy)]
pub struct Marked<'a> {
    pub region: &'a [u32],
    pub bytes: u32,
    pub marks: &'a Marks,
    pub ghost lent: { Lent region.now bytes },
}

// The table, and for each of its bins both ends of its list.
#[derive(Clone, Copy)]
pub struct Lists<'a> {
    pub table: Table<'a>,
    pub heads: &'a [u32],
    pub tails: &'a [u32],
    pub ghost enough_heads: { length table.sizes.now ≤ length heads.now },
    pub ghost enough_tails: { length table.sizes.now ≤ length tails.now },
}

impl Lists<'_> {
    // The first bin from this one on that has a head or a tail, or else the bin count. A bin with neither has an empty list, which is right.
    // The search is a loop of its own, and gives a number: as a test in the loop of the sweep, or with an `Option`, it misses the speed that
    // this form has (measured: 1.5 to 3 instructions in 100 of a check, 11 to 15 of one with few chunks).
    fn next_listed(self, from: usize) -> usize
        ensures { NextListed self.entry.heads.now self.entry.tails.now from result }
    {
        let count = self.table.sizes.len();
        for bin in from..count {
            if self.heads[bin] | self.tails[bin] != 0 {
                return bin;
            }
        }
        from.max(count)
    }
}

// How many members a whole list has, and the last of them.
#[derive(Clone, Copy)]
pub struct Members {
    pub count: u32,
    pub last: u32,
}

// The members of a list that is whole.
// No list has more members than there are heap bytes, so that a ring of links is found when these are used up.
// The loop goes along links, so that a range would only count, and the end of the list would be tested in two places.
pub fn sweep_list(marked: Marked<'_>, table: Table<'_>, bin: usize, first: u32) -> Option<Members>
    requires { bin < length table.sizes.now }
    ensures { SweptIs marked.entry.region.now table.entry.sizes.now bin marked.entry.bytes marked.entry.marks.now.words first result }
{
    let region = marked.region;
    let mut sizes = sizes_of(table, bin);
    let mut at = first;
    let mut before = 0;
    let mut count = 0;
    while at != 0 {
        if count == marked.bytes {
            return None;
        }
        let number = number_of(Chunk(at));
        if !is_placed(number, marked.bytes) {
            return None;
        }
        if !marked.marks.is_marked(number) {
            return None;
        }
        if !is_listed(region, sizes, before, Chunk(at)) {
            return None;
        }
        let i = (at / 4) as usize;
        let size = region[i + SIZE as usize];
        sizes.least = size;
        before = at;
        at = region[i + NEXT_IN_BIN as usize];
        count += 1;
    }
    if sizes.least > sizes.most {
        return None;
    }
    Some(Members {
        count,
        last: before,
    })
}

// How many members all lists have, if every one is whole and ends at its tail.
pub fn sweep_bins(marked: Marked<'_>, lists: Lists<'_>) -> Option<u32>
    ensures { SweepIs marked.entry.region.now lists.entry.table.sizes.now lists.entry.heads.now lists.entry.tails.now marked.entry.bytes marked.entry.marks.now.words result }
{
    let mut met: u32 = 0;
    let mut bin = lists.next_listed(0);
    while bin < lists.table.sizes.len() {
        let members = sweep_list(marked, lists.table, bin, lists.heads[bin])?;
        if lists.tails[bin] != members.last {
            return None;
        }
        met = met.wrapping_add(members.count);
        bin = lists.next_listed(bin + 1);
    }
    Some(met)
}
