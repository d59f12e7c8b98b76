// A chunk is given back: which free neighbours it coalesces with, and then the writes that put the result in its place.
// All is decided before the first write. How the chunk was found is not known here; the summary is made in `give`.
#![tactic(auto)]

ghost use Rattle.std.specs.Prelude.{◌≡◌, cond};
ghost use Rattle.books.specs.Books.{books};
ghost use Rattle.record.specs.Heap.{SameSlices};
ghost use Rattle.region.specs.Words.{word, backward, forward};
ghost use Rattle.release.specs.Release.{give_back_m, join_m, moved_m, neighbour_m};
ghost use Rattle.rules.specs.Join.{joined_as};
ghost use Rattle.rules.specs.Kinds.{free_kind};

use chain::{is_free, is_ordinary, kind_of};
use headers::{distance, write_above, write_free};
use record::heap::{Ends, Summary};
use record::kinds::Kind;
use record::table::Table;
use region::{ALIGNMENT, BACKWARD, Chunk, FORWARD, word};
use seek::Place;
use settling::{Arrival, leave_bin, settle};

pub mod give;

// The free chunk that comes of it, from `chunk` to `end`, with the chunk below it and the flags of the one above. `lower` and `upper`
// say that an ordinary chunk joined on that side: it has a bin to leave.
#[derive(Clone, Copy)]
pub struct Union {
    pub below: Chunk,
    pub chunk: Chunk,
    pub end: u32,
    pub flags: u32,
    pub becomes: Kind,
    pub lower: bool,
    pub upper: bool,
}

// With merging off a neighbour counts as in use, so that nothing joins it.
#[tactic(auto, unfolding(crate::specs::Release::neighbour_m))]
pub fn neighbour(region: &[u32], summary: Summary, chunk: Chunk) -> Kind
    ensures { result ≡ neighbour_m region.now summary chunk.0 }
{
    if !summary.merge {
        return Kind::InUse;
    }
    let flags = word(region, chunk, BACKWARD) % ALIGNMENT;
    kind_of(summary, chunk, flags)
}

// A donor or a top above that joins stays donor or top, and grows downwards.
pub fn joined_as(above: Kind) -> Kind
    ensures { result ≡ joined_as above }
{
    match above {
        Kind::Donor => Kind::Donor,
        Kind::Top => Kind::Top,
        _ => Kind::Ordinary,
    }
}

// The chunk below the result. An ordinary chunk that joins has no flag set, so that its backward link is the place below it.
fn below_of(region: &[u32], joins: bool, before: Chunk) -> Chunk
    ensures { result.0 ≡ cond joins (word region.now before.0 backward) before.0 }
{
    if joins {
        Chunk(word(region, before, BACKWARD))
    } else {
        before
    }
}

// Where the result ends: a free chunk above joins, and its forward link is where it ends.
fn reach(region: &[u32], above: Kind, end: u32) -> u32
    ensures { result ≡ cond (free_kind above) (word region.now end forward) end }
{
    if is_free(above) {
        word(region, Chunk(end), FORWARD)
    } else {
        end
    }
}

// Where the result starts.
fn lower_of(joins: bool, before: Chunk, chunk: Chunk) -> Chunk
    ensures { result.0 ≡ cond joins before.0 chunk.0 }
{
    if joins { before } else { chunk }
}

// What the chunk at a place joins: with merging on an ordinary chunk just below it, then any free one just above.
#[tactic(auto, unfolding(crate::specs::Release::join_m, crate::specs::Release::joined_m))]
pub fn join(region: &[u32], summary: Summary, place: Place) -> Union
    ensures { result ≡ join_m region.now summary place }
{
    let before = place.before;
    let lower = is_ordinary(neighbour(region, summary, before));
    let above = neighbour(region, summary, Chunk(place.end));
    let to = reach(region, above, place.end);
    let flags = word(region, Chunk(to), BACKWARD) % ALIGNMENT;
    Union {
        below: below_of(region, lower, before),
        chunk: lower_of(lower, before, place.chunk),
        end: to,
        flags,
        becomes: joined_as(above),
        lower,
        upper: is_ordinary(above),
    }
}

// Where the patrol goes on: a place inside the result was swallowed, and moves down to it.
#[tactic(auto, unfolding(crate::specs::Release::moved_m))]
pub fn moved_down(joined: Union, patrol: Chunk) -> Chunk
    ensures { result.0 ≡ moved_m joined patrol.0 }
{
    if joined.chunk.0 < patrol.0 && patrol.0 < joined.end {
        joined.chunk
    } else {
        patrol
    }
}

// The writes. The neighbours of the place that joined leave their bins, the lower one first.
#[tactic(auto, unfolding(crate::specs::Release::give_back_m))]
pub fn give_back(
    region: &mut [u32],
    ends: &mut Ends<'_>,
    table: Table<'_>,
    place: Place,
    joined: Union,
)
    ensures books_after { books region.new ends.new.heads.now ends.new.tails.now ≡ give_back_m (books region.old ends.old.heads.now ends.old.tails.now) table.entry.sizes.now place joined }
    ensures same_slices { SameSlices ends.old ends.new }
{
    leave_bin(region, ends, joined.lower, place.before);
    leave_bin(region, ends, joined.upper, Chunk(place.end));
    write_free(region, joined.below, joined.chunk, Chunk(joined.end));
    write_above(region, joined.chunk, Chunk(joined.end), joined.flags);
    let arrival = Arrival {
        becomes: joined.becomes,
        chunk: joined.chunk,
        size: distance(joined.chunk.0, joined.end),
    };
    settle(region, ends, table, arrival);
}
