// The chunk of a live block, or its tail, is given back. Where it is was found before; the bins' ends are lent, and the summary is
// handed back: the caller sets the record.
ghost use Rattle.std.specs.Prelude.{◌≡◌};
ghost use Rattle.books.specs.Books.{books};
ghost use Rattle.record.specs.Heap.{SameSlices};
ghost use Rattle.release.specs.Give.{given_up, give_up_m};

use crate::{give_back, join, moved_down};
use headers::distance;
use record::heap::{Ends, Summary};
use record::table::Table;
use seek::Place;
use settling::settled;

#[tactic(auto, unfolding(crate::specs::Give::give_up_m))]
pub fn give_up(
    region: &mut [u32],
    ends: &mut Ends<'_>,
    table: Table<'_>,
    summary: Summary,
    place: Place,
) -> Summary
    ensures outcome { given_up (books region.new ends.new.heads.now ends.new.tails.now) result ≡ give_up_m (books region.old ends.old.heads.now ends.old.tails.now) table.entry.sizes.now summary place }
    ensures same_slices { SameSlices ends.old ends.new }
{
    let joined = join(region, summary, place);
    let patrol = moved_down(joined, summary.patrol);
    give_back(region, ends, table, place, joined);
    let size = distance(place.chunk.0, place.end);
    let used = distance(size, summary.used);
    settled(summary, joined.becomes, joined.chunk)
        .with_patrol(patrol)
        .with_used(used)
}
