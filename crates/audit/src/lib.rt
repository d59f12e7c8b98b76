// The check, in time linear in the chunks: one walk of the chain that marks each ordinary chunk, one walk of each
// bin's list that reads the marks. Nothing is written into the region.
#![tactic(auto)]

ghost use Rattle.std.specs.Prelude.{◌≡◌};
ghost use Rattle.audit.specs.Audit.{AuditIs, WalkedIs, answer_of, is_settled_m, is_shared_m};
ghost use Rattle.chain.specs.Length.{Lent};
ghost use Rattle.record.specs.Heap.{record_of};
ghost use Rattle.rules.specs.Check.{passes};
ghost use Rattle.rules.specs.Merge.{checked};

use crate::arrays::Arrays;
use chain::length::fits_length;
use marks::Marks;
use record::answers::{Answer, Counts, Refusal};
use record::heap::{Heap, Summary};
use record::table::Table;
use region::END_SIZE;
use survey::{Tally, walk};
use sweep::{Lists, Marked, sweep_bins};

pub mod arrays;

// The bytes of start and end.
const ENDS: u64 = 2 * END_SIZE as u64;

// What the walk of the chain must have met: a top, and a donor if the record names one.
#[tactic(auto, unfolding(crate::specs::Audit::is_settled_m))]
pub fn is_settled(tally: Tally, summary: Summary) -> bool
    ensures { result ≡ is_settled_m tally summary }
{
    tally.tops != 0 && (summary.donor.0 == 0 || tally.donors != 0)
}

// The record's used bytes are what start, end and the free bytes leave of the heap bytes, so that nothing need add them up.
#[tactic(auto, unfolding(crate::specs::Audit::is_shared_m))]
pub fn is_shared(free: u32, summary: Summary) -> bool
    ensures { result ≡ is_shared_m free summary }
{
    free as u64 + summary.used as u64 + ENDS == summary.bytes as u64
}

// The two walks, on the even part of the region: the counts, if all is well.
pub fn walk_all(region: &[u32], lists: Lists<'_>, summary: Summary) -> Option<Counts>
    requires { Lent region.now summary.bytes }
    ensures { WalkedIs region.now lists.entry.table.sizes.now lists.entry.heads.now lists.entry.tails.now summary result }
{
    let mut marks = Marks::clear();
    let tally = walk(region, summary, &mut marks)?;
    if !is_settled(tally, summary) {
        return None;
    }
    if !is_shared(tally.free, summary) {
        return None;
    }
    let marked = Marked {
        region,
        bytes: summary.bytes,
        marks: &marks,
    };
    let met = sweep_bins(marked, lists)?;
    if met != tally.ordinary {
        return None;
    }
    Some(Counts {
        chunks: tally.chunks,
        ordinary: tally.ordinary,
        used: summary.used,
        free: tally.free,
    })
}

// The whole check, of a record's parts: the counts of a heap that passes.
// An odd last word is not lent to the walks, so that no function below can read it.
pub fn look(region: &[u32], summary: Summary, arrays: Arrays<'_>) -> Option<Counts>
    ensures { AuditIs region.now (record_of summary arrays.entry.sizes.now arrays.entry.heads.now arrays.entry.tails.now) result }
{
    if !fits_length(region.len(), summary.bytes) {
        return None;
    }
    let bins = summary.bins as usize;
    if !arrays.is_tabled(bins) {
        return None;
    }
    let even = (summary.bytes / 4) as usize;
    let lists = Lists {
        table: Table {
            sizes: &arrays.sizes[..bins],
        },
        heads: arrays.heads,
        tails: arrays.tails,
    };
    walk_all(&region[..even], lists, summary)
}

// The same of a record.
fn look_at(region: &[u32], h: &Heap) -> Option<Counts>
    ensures { AuditIs region.now h.now result }
{
    let arrays = Arrays {
        sizes: &h.sizes,
        heads: &h.heads,
        tails: &h.tails,
    };
    look(region, h.summary(), arrays)
}

// The check's answer, by what was found: the four counts, or the refusal.
#[tactic(auto, unfolding(crate::specs::Audit::answer_of))]
pub fn answer_of(found: Option<Counts>) -> Answer
    ensures { result ≡ answer_of found }
{
    match found {
        Some(counts) => Answer::Counted(counts),
        None => Answer::Refused(Refusal::HeapFails),
    }
}

// The check as a call answers it.
pub fn verdict(region: &[u32], h: Heap) -> Answer
    ensures { result ≡ checked region.now h }
{
    answer_of(look_at(region, &h))
}

// The check as every other call asks for it.
pub fn passes(region: &[u32], h: Heap) -> bool
    ensures { result ≡ passes region.now h }
{
    look_at(region, &h).is_some()
}
