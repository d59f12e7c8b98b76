// A free chunk is cut: its lowest bytes are granted, and what is left above them takes its place again, as what the chunk was.
// Which chunk it is was chosen before; the caller sets the record.
ghost use Rattle.std.specs.Prelude.{◌≡◌};
ghost use Rattle.books.specs.Books.{books};
ghost use Rattle.record.specs.Heap.{SameSlices};
ghost use Rattle.grant.specs.Cut.{cut_m, granted_m, take_m};

use chain::is_ordinary;
use headers::{distance, write_above, write_free, write_used};
use record::heap::Ends;
use record::kinds::Kind;
use record::table::Table;
use region::{ALIGNMENT, BACKWARD, Chunk, FORWARD, LEAST, SIZE, word};
use settling::{Arrival, leave_bin, settle};

// The granted part is from `chunk` to `rest`, what is left of it from `rest` to `end`; the chunk below it, and the flags of the one above.
#[derive(Clone, Copy)]
pub struct Cut {
    pub below: Chunk,
    pub chunk: Chunk,
    pub rest: Chunk,
    pub end: Chunk,
    pub flags: u32,
}

// What is left may be smaller than any chunk: then all of it is granted too.
#[tactic(auto, unfolding(crate::specs::Cut::granted_m))]
pub fn granted(need: u32, size: u32) -> u32
    ensures { result ≡ granted_m need size }
{
    if need as u64 + LEAST as u64 <= size as u64 {
        need
    } else {
        size
    }
}

// A free chunk has no flag set, so that its backward link is the place below it.
#[tactic(auto, unfolding(crate::specs::Cut::cut_m))]
pub fn cut_of(region: &[u32], chunk: Chunk, need: u32) -> Cut
    ensures { result ≡ cut_m region.now chunk.0 need }
{
    let below = word(region, chunk, BACKWARD);
    let given = granted(need, word(region, chunk, SIZE));
    let end = word(region, chunk, FORWARD);
    let flags = word(region, Chunk(end), BACKWARD) % ALIGNMENT;
    Cut {
        below: Chunk(below),
        chunk,
        rest: Chunk(chunk.0.wrapping_add(given)),
        end: Chunk(end),
        flags,
    }
}

// The writes. Only an ordinary chunk is in a bin, and leaves it.
#[tactic(auto, unfolding(crate::specs::Cut::take_m))]
pub fn take(region: &mut [u32], ends: &mut Ends<'_>, table: Table<'_>, kind: Kind, cut: Cut)
    ensures books_after { books region.new ends.new.heads.now ends.new.tails.now ≡ take_m (books region.old ends.old.heads.now ends.old.tails.now) table.entry.sizes.now kind cut }
    ensures same_slices { SameSlices ends.old ends.new }
{
    leave_bin(region, ends, is_ordinary(kind), cut.chunk);
    write_used(region, cut.below, cut.chunk, cut.rest);
    if cut.rest == cut.end {
        write_above(region, cut.chunk, cut.end, cut.flags);
        return;
    }
    write_free(region, cut.chunk, cut.rest, cut.end);
    write_above(region, cut.rest, cut.end, cut.flags);
    let arrival = Arrival {
        becomes: kind,
        chunk: cut.rest,
        size: distance(cut.rest.0, cut.end.0),
    };
    settle(region, ends, table, arrival);
}
