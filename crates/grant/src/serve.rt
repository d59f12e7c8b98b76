// A request for room, met from its source by a cut. The bins' ends are lent, and the summary is handed back: the caller sets the record.
// Where nothing can serve, the caller has refused before.
ghost use Rattle.std.specs.Prelude.{◌≡◌};
ghost use Rattle.books.specs.Books.{books};
ghost use Rattle.record.specs.Heap.{SameSlices};
ghost use Rattle.drafts.specs.Sources.{kind_in, place_in};
ghost use Rattle.grant.specs.Serve.{served, serve_m};

use crate::cut::{cut_of, take};
use headers::distance;
use record::heap::{Ends, Summary};
use record::kinds::Kind;
use record::sources::Source;
use record::table::Table;
use region::Chunk;
use settling::settled;

// What is asked for: so many bytes, from the source that was chosen, if any.
#[derive(Clone, Copy)]
pub struct Order {
    pub source: Option<Source>,
    pub need: u32,
}

// The granted chunk, and the summary after the grant.
#[derive(Clone, Copy)]
pub struct Portion {
    pub chunk: Chunk,
    pub size: u32,
    pub summary: Summary,
}

fn kind_in(source: Option<Source>) -> Kind
    ensures { result ≡ kind_in source }
{
    match source {
        Some(Source::FromBin(_)) => Kind::Ordinary,
        Some(Source::FromDonor) => Kind::Donor,
        Some(Source::FromTop) => Kind::Top,
        None => Kind::Start,
    }
}

fn place_in(summary: Summary, source: Option<Source>) -> Chunk
    ensures { result.0 ≡ place_in summary.donor.0 summary.top.0 source }
{
    match source {
        Some(Source::FromBin(chunk)) => chunk,
        Some(Source::FromDonor) => summary.donor,
        Some(Source::FromTop) => summary.top,
        None => Chunk(0),
    }
}

// The sum of used bytes never wraps: it is at most the heap bytes.
#[tactic(auto, unfolding(crate::specs::Serve::serve_m, crate::specs::Serve::taken_m))]
pub fn serve(
    region: &mut [u32],
    ends: &mut Ends<'_>,
    table: Table<'_>,
    summary: Summary,
    order: Order,
) -> Portion
    ensures outcome { served (books region.new ends.new.heads.now ends.new.tails.now) result ≡ serve_m (books region.old ends.old.heads.now ends.old.tails.now) table.entry.sizes.now summary order.source order.need }
    ensures same_slices { SameSlices ends.old ends.new }
{
    let kind = kind_in(order.source);
    let chunk = place_in(summary, order.source);
    let cut = cut_of(region, chunk, order.need);
    let rest = cut.rest;
    let size = distance(chunk.0, rest.0);
    take(region, ends, table, kind, cut);
    let used = summary.used.wrapping_add(size);
    Portion {
        chunk,
        size,
        summary: settled(summary, kind, rest).with_used(used),
    }
}
