// The bin table, lent: whether it is valid, which bins and sizes are the small array's, and the bin of a size.
// Which chunks are in a bin is not known here.
ghost use Rattle.std.specs.Prelude.{◌≡◌, ltb};
ghost use Rattle.record.specs.Table.{ValidTable, valid_table, small_bins, small, Takes, TakenBy, TakenWithin};

use crate::heap::PLACES;
use region::{ALIGNMENT, LEAST};

// The bins of the small array are 24, 32, 40 and so on: by how much they go up, the second of them, and the first in eights.
const STEP: usize = ALIGNMENT as usize;

const SECOND: usize = LEAST as usize + STEP;

const FIRST_EIGHTS: usize = LEAST as usize / STEP;

// The loop has no early exit, so that the compiler can test several sizes at a time.
pub fn valid(table: &[u32]) -> bool
    ensures { result ≡ valid_table table.now }
{
    if table.is_empty() {
        return false;
    }
    if PLACES < table.len() {
        return false;
    }
    if table[0] != LEAST {
        return false;
    }
    let mut right = true;
    let mut before = LEAST;
    for &size in &table[1..] {
        right = right & (size % ALIGNMENT == 0) & (before < size);
        before = size;
    }
    right
}

// The sizes of a valid table: a function that is handed one need not ask whether it is valid.
#[derive(Clone, Copy)]
pub struct Table<'a> {
    pub sizes: &'a [u32],
    ghost valid: { ValidTable sizes.now },
}

impl<'a> Table<'a> {
    // Whether the bin is one of the small array's. m is not counted: sizes go up by 8 at least, so that bin i + 1 has the size
    // 24 + 8(i + 1) only where no size is left out below it.
    pub fn in_small_array(self, bin: usize) -> bool
        ensures { result ≡ ltb bin (small_bins self.entry.sizes.now) }
    {
        if self.sizes.len() - 1 <= bin {
            return false;
        }
        self.sizes[bin + 1] as usize == SECOND + STEP * bin
    }

    // Whether the size is one of the small array's: its bin would be, by the division.
    pub fn is_small(self, size: u32) -> bool
        ensures { result ≡ small self.entry.sizes.now size }
    {
        let eights = (size / ALIGNMENT) as usize;
        if eights < FIRST_EIGHTS {
            return true;
        }
        self.in_small_array(eights - FIRST_EIGHTS)
    }

    // None where every bin is for larger sizes. Else the guide's two rules: the bin of a small size by division, that of any other by
    // halving. The first range is the whole table, since m is not known: no bin of the small array is above such a size, so that the search
    // goes up past the small array.
    pub fn bin_of(self, size: u32) -> Option<usize>
        ensures { TakenBy self.entry.sizes.now size result }
    {
        if size < LEAST {
            return None;
        }
        if self.is_small(size) {
            return Some((size / ALIGNMENT) as usize - FIRST_EIGHTS);
        }
        Some(upper_bin(&self.sizes, size, 0, self.sizes.len()))
    }
}

// The recursion stays beside the library's partition_point: the theorem `five_deep` (proofs/HalvingLaws.antt) is of it.
// Binary search: one of the `width` bins from `low` on takes the size, and the range is halved until one bin is left.
// A table is a reference to the slice here, so that a call passes one pointer on, and the compiler makes a loop of the recursion.
// Each half has its own test whether it is one bin, so that the loop branches on the comparison, which measured faster.
fn upper_bin(table: &&[u32], size: u32, low: usize, width: usize) -> usize
    requires { TakenWithin table.now.now size low width }
    ensures { Takes table.now.now size result }
{
    let half = width / 2;
    let middle = low + half;
    let sizes = *table;
    if sizes[middle] <= size {
        let rest = width - half;
        if rest <= 1 {
            return middle;
        }
        return upper_bin(table, size, middle, rest);
    }
    if half <= 1 {
        return low;
    }
    upper_bin(table, size, low, half)
}
