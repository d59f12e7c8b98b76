// The chunk of a live block is freed, on a heap that passed the check. Where it is was found on the chain before.
// The bins' ends are lent, and the summary is handed back beside the answer: the caller sets the record.
#![tactic(auto)]

ghost use Rattle.std.specs.Prelude.{◌≡◌, Ok};
ghost use Rattle.books.specs.Books.{books};
ghost use Rattle.record.specs.Heap.{SameSlices};
ghost use Rattle.reclaim.specs.Reclaim.{reclaim_m};
ghost use Rattle.replies.specs.Replies.{concluded};

use headers::distance;
use record::answers::Answer;
use record::heap::{Ends, Summary};
use record::table::Table;
use release::give::give_up;
use replies::{Answered, change};
use seek::Place;

#[tactic(auto, using(replies::proofs::ChangeLaws::change_kept), unfolding(crate::specs::Reclaim::reclaim_m))]
pub fn reclaim(
    region: &mut [u32],
    ends: &mut Ends<'_>,
    table: Table<'_>,
    summary: Summary,
    place: Place,
) -> Answered
    ensures outcome { concluded (books region.new ends.new.heads.now ends.new.tails.now) (Ok result) ≡ reclaim_m (books region.old ends.old.heads.now ends.old.tails.now) table.entry.sizes.now summary place }
    ensures same_slices { SameSlices ends.old ends.new }
{
    let size = distance(place.chunk.0, place.end);
    Answered {
        answer: Answer::Returned(change(size, 0)),
        summary: give_up(region, ends, table, summary, place),
    }
}
