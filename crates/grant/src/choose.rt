// The four tries: the bin of the need, the larger bins, the top, the donor. A small need asks the donor before the larger bins, any other
// need asks it last. Nothing is written here.
ghost use Rattle.std.specs.Prelude.{◌≡◌};
ghost use Rattle.bins.specs.Bins.{chunk_or_none};
ghost use Rattle.grant.specs.Choose.{choose_m, donor_m, larger_m, own_m, top_m, top_or_donor_m};

use bins::{first_fit, list_end, next_occupied};
use record::heap::Summary;
use record::sources::Source;
use record::table::Table;
use region::{Chunk, LEAST, SIZE, word};

// The first chunk of the bin, in list order, that is large enough.
#[tactic(auto, unfolding(crate::specs::Choose::own_m))]
pub fn own_bin(region: &[u32], heads: &[u32], bin: Option<usize>, need: u32) -> Option<Chunk>
    ensures { result ≡ chunk_or_none (own_m region.now heads.now need bin) }
{
    let first = Chunk(list_end(heads, bin?));
    first_fit(region, first, need)
}

// Every chunk of a larger bin is large enough: the first one of the next bin that has any.
#[tactic(auto, unfolding(crate::specs::Choose::larger_m))]
pub fn larger_bin(heads: &[u32], bins: usize, bin: Option<usize>) -> Option<Chunk>
    ensures { result ≡ chunk_or_none (larger_m heads.now bins bin) }
{
    next_occupied(heads, bin?, bins)
}

// A chunk of the least size stays behind, so that the donor is never used up.
#[tactic(auto, unfolding(crate::specs::Choose::donor_m))]
pub fn donor_serves(region: &[u32], donor: Chunk, need: u32) -> bool
    ensures { result ≡ donor_m region.now donor.0 need }
{
    if donor.0 == 0 {
        return false;
    }
    need as u64 + LEAST as u64 <= word(region, donor, SIZE) as u64
}

// The same of the top, which is always there. Two functions, as the rules have two tries (`try_donor`, `try_top`).
#[tactic(auto, unfolding(crate::specs::Choose::top_m))]
pub fn top_serves(region: &[u32], top: Chunk, need: u32) -> bool
    ensures { result ≡ top_m region.now top.0 need }
{
    need as u64 + LEAST as u64 <= word(region, top, SIZE) as u64
}

// Where no bin serves: the top, and the donor if the top does not serve either.
#[tactic(auto, unfolding(crate::specs::Choose::top_or_donor_m))]
pub fn top_or_donor(top: bool, donor: bool) -> Option<Source>
    ensures { result ≡ top_or_donor_m top donor }
{
    if top {
        return Some(Source::FromTop);
    }
    donor.then_some(Source::FromDonor)
}

pub fn choose(
    region: &[u32],
    table: Table<'_>,
    heads: &[u32],
    summary: Summary,
    need: u32,
) -> Option<Source>
    ensures { result ≡ choose_m region.now table.entry.sizes.now heads.now summary need }
{
    let bin = table.bin_of(need);
    if let Some(own) = own_bin(region, heads, bin, need) {
        return Some(Source::FromBin(own));
    }
    let donor = donor_serves(region, summary.donor, need);
    if donor && table.is_small(need) {
        return Some(Source::FromDonor);
    }
    if let Some(larger) = larger_bin(heads, table.sizes.len(), bin) {
        return Some(Source::FromBin(larger));
    }
    top_or_donor(top_serves(region, summary.top, need), donor)
}
