// The walk of the chain: every chunk is examined, counted and, if it is ordinary, marked.
// The lists of the bins are walked afterwards, in the crate `sweep`.
#![tactic(auto)]

ghost use Rattle.std.specs.Prelude.{◌≡◌, ◌<◌, ◌/◌, length};
ghost use Rattle.chain.specs.Length.{Lent};
ghost use Rattle.survey.specs.Chunks.{is_first_m};
ghost use Rattle.record.specs.declared.kinds.Kind.TheVariants.{Start};
ghost use Rattle.survey.specs.Survey.{SurveyIs, added_m, finish_m, first_limit_m, mark_m, nothing, share_of};

use crate::chunks::examine;
use crate::visit::Visit;
use chain::is_ordinary;
use marks::{Marks, flip};
use record::heap::Summary;
use record::kinds::Kind;
use region::{BACKWARD, Chunk, END_SIZE, FORWARD, IN_USE};

pub mod chunks;
pub mod header;
pub mod visit;

// What one chunk adds to each count.
#[derive(Clone, Copy, Default)]
pub struct Share {
    pub ordinary: u32,
    pub donors: u32,
    pub tops: u32,
    pub free: u32,
}

// The counts. Used bytes are not added up: they are what free bytes, start and end leave.
#[derive(Clone, Copy, Default)]
pub struct Tally {
    pub chunks: u32,
    pub ordinary: u32,
    pub donors: u32,
    pub tops: u32,
    pub free: u32,
}

// The sums never wrap: all sizes together are the heap bytes.
pub fn added(tally: Tally, share: Share) -> Tally
    ensures { result ≡ added_m tally share }
{
    Tally {
        chunks: tally.chunks.wrapping_add(1),
        ordinary: tally.ordinary.wrapping_add(share.ordinary),
        donors: tally.donors.wrapping_add(share.donors),
        tops: tally.tops.wrapping_add(share.tops),
        free: tally.free.wrapping_add(share.free),
    }
}

// Each arm adds a share that is a constant but for the size, so that a chunk costs only the counts that it changes. (Adding once, behind the
// `match`, costs 12 instructions more for each chunk.)
pub fn tallied(tally: Tally, kind: Kind, size: u32) -> Tally
    ensures { result ≡ added_m tally (share_of kind size) }
{
    let none = Share::default();
    match kind {
        Kind::Start | Kind::InUse | Kind::End => added(tally, none),
        Kind::Ordinary => added(
            tally,
            Share {
                ordinary: 1,
                free: size,
                ..none
            },
        ),
        Kind::Donor => added(
            tally,
            Share {
                donors: 1,
                free: size,
                ..none
            },
        ),
        Kind::Top => added(
            tally,
            Share {
                tops: 1,
                free: size,
                ..none
            },
        ),
    }
}

#[tactic(auto, unfolding(crate::specs::Survey::mark_m))]
pub fn mark(marks: &mut [u32], kind: Kind, chunk: Chunk)
    requires { chunk.0 / 256 < length marks.old }
    ensures { marks.new ≡ mark_m marks.old kind chunk.0 }
{
    if is_ordinary(kind) {
        flip(marks, chunk);
    }
}

// The start chunk by its two words: 8 bytes, in use, and no chunk before it.
#[tactic(auto, unfolding(crate::specs::Chunks::is_first_m))]
fn is_first(next: u32, link: u32) -> bool
    ensures { result ≡ is_first_m next link }
{
    next == END_SIZE && link == IN_USE
}

// The counts when the start chunk has been passed.
fn begun() -> Tally
    ensures { result ≡ added_m nothing (share_of Start 8) }
{
    tallied(Tally::default(), Kind::Start, END_SIZE)
}

// Where the chain does not go on any more it is at its end, or broken.
#[tactic(auto, unfolding(crate::specs::Survey::finish_m))]
fn finish(visit: Visit, last: u32, tally: Tally) -> Option<Tally>
    ensures { result ≡ finish_m visit last tally }
{
    let whole = tallied(tally, Kind::End, END_SIZE);
    visit.is_last(last).then_some(whole)
}

// How far the walk may go at first: to the patrol's place, where it has to stop at a chunk. The start is behind it already.
fn first_limit(patrol: Chunk, last: u32) -> u32
    ensures { result ≡ first_limit_m patrol.0 last }
{
    if patrol.0 == 0 { last } else { patrol.0 }
}

// The counts of a chain that is whole.
// The walk goes up to a limit: first the patrol's place, then the end chunk. Links are compared with the limit, so that no chunk's place
// need be compared with the patrol's.
// A chunk's links are read right behind the test of the link that leads to it: there the compiler knows that its place is a multiple of 8.
// The loop goes along links, and ends at the second limit: a range would count what nothing else counts.
pub fn walk(region: &[u32], summary: Summary, marks: &mut Marks) -> Option<Tally>
    requires { Lent region.now summary.bytes }
    ensures { SurveyIs region.now summary marks.old.words marks.new.words result }
{
    let last = summary.bytes - END_SIZE;
    if !is_first(region[FORWARD as usize], region[BACKWARD as usize]) {
        return None;
    }
    if last < summary.patrol.0 {
        return None;
    }
    let mut limit = first_limit(summary.patrol, last);
    let mut tally = begun();
    let mut visit = Visit::meet(region, Chunk(0), Chunk(END_SIZE));
    loop {
        let chunk = visit.chunk;
        if visit.goes_on(limit) {
            let kind = examine(region, visit, summary)?;
            mark(&mut marks.words, kind, chunk);
            tally = tallied(tally, kind, visit.next - chunk.0);
            visit = Visit::meet(region, chunk, Chunk(visit.next));
            continue;
        }
        if limit == last {
            return finish(visit, last, tally);
        }
        if chunk.0 != limit {
            return None;
        }
        limit = last;
    }
}
