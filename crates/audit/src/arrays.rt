// The record's three arrays, lent where they stand, so that they are not copied for the check.
ghost use Rattle.std.specs.Prelude.{◌&&◌, ◌≡◌};
ghost use Rattle.audit.specs.Audit.{HasPlaces, is_tabled_m};
ghost use Rattle.rules.specs.Check.{unused_from};

use record::heap::PLACES;
use record::table::valid;

// The sizes, heads and tails of the bins. Each array has its places.
#[derive(Clone, Copy)]
pub struct Arrays<'a> {
    pub sizes: &'a [u32],
    pub heads: &'a [u32],
    pub tails: &'a [u32],
    pub ghost places: { HasPlaces sizes.now heads.now tails.now },
}

impl Arrays<'_> {
    // From a place on the three arrays hold nothing but 0. One loop goes along all three, with no early exit, so that the compiler can test
    // several places at a time.
    pub fn is_unused(self, from: usize) -> bool
        ensures { result ≡ (unused_from from self.entry.sizes.now && unused_from from self.entry.heads.now && unused_from from self.entry.tails.now) }
    {
        let mut seen = 0;
        for i in from..PLACES {
            seen |= self.sizes[i] | self.heads[i] | self.tails[i];
        }
        seen == 0
    }

    // The table is valid, and the places past the bin count are unused.
    #[tactic(auto, unfolding(crate::specs::Audit::is_tabled_m))]
    pub fn is_tabled(self, bins: usize) -> bool
        ensures { result ≡ is_tabled_m bins self.entry.sizes.now self.entry.heads.now self.entry.tails.now }
    {
        bins <= self.sizes.len() && valid(&self.sizes[..bins]) && self.is_unused(bins)
    }
}
