// Reading the chain: the kind of a chunk, and where it ends. That the region is as long as it should be is in `length`.
// Nothing is written here, and no bin is looked at.
#![tactic(auto)]

ghost use Rattle.std.specs.Prelude.{ℕ, ◌≡◌};
ghost use Rattle.chain.specs.Chain.{end_m, kind_m};
ghost use Rattle.rules.specs.Kinds.{free_kind, ordinary_kind};
ghost use Rattle.rules.specs.Shape.{entry};

use record::heap::Summary;
use record::kinds::Kind;
use region::{Chunk, END_SIZE};

pub mod length;

// A chunk's size says nothing of its kind, so that the answer is right for every size.
#[tactic(auto, unfolding(rules::specs::Kinds::kind_at, rules::specs::Kinds::in_use))]
pub fn kind_of(summary: Summary, chunk: Chunk, flags: u32) -> Kind
    ensures { (s : ℕ) → result ≡ kind_m summary (entry chunk.0 s flags) }
{
    if chunk.0 == 0 {
        return Kind::Start;
    }
    if chunk.0 as u64 + END_SIZE as u64 == summary.bytes as u64 {
        return Kind::End;
    }
    if flags % 2 == 1 {
        return Kind::InUse;
    }
    if chunk == summary.top {
        return Kind::Top;
    }
    if chunk == summary.donor {
        return Kind::Donor;
    }
    Kind::Ordinary
}

pub fn is_ordinary(kind: Kind) -> bool
    ensures { result ≡ ordinary_kind kind }
{
    matches!(kind, Kind::Ordinary)
}

pub fn is_free(kind: Kind) -> bool
    ensures { result ≡ free_kind kind }
{
    matches!(kind, Kind::Ordinary | Kind::Donor | Kind::Top)
}

// Where a chunk ends: at the next one, or, if its forward link does not go up inside the heap, with the heap.
#[tactic(auto, unfolding(crate::specs::Chain::end_m))]
pub fn end_of(bytes: u32, chunk: Chunk, next: u32) -> u32
    ensures { result ≡ end_m bytes chunk.0 next }
{
    if next <= chunk.0 {
        return bytes;
    }
    if bytes <= next {
        return bytes;
    }
    next
}
