// The record: a struct by value, with a setter for what grants and frees change, one for the merge setting and one for the patrol's
// place; its summary, which is the record without its arrays; and the ends of its bins. What the fields must be for a heap to pass is in
// the rules.
ghost use Rattle.std.specs.Prelude.{◌≡◌};
ghost use Rattle.record.specs.Heap.{donor_now, empty, patrol_now, summary_of, top_now, used_now, with_ends, with_merge, with_patrol, with_summary};

use region::Chunk;

// A record has places for this many bins, in its table, heads and tails.
pub const PLACES: usize = 32;

#[derive(Clone, Copy)]
pub struct Heap {
    pub bytes: u32,
    pub bins: u32,
    pub sizes: [u32; PLACES],
    pub heads: [u32; PLACES],
    pub tails: [u32; PLACES],
    // At 0 where there is none, as kz_record of include/kruzhvela.h and the rules (`try_donor`) have it.
    pub donor: Chunk,
    pub top: Chunk,
    pub merge: bool,
    pub used: u32,
    // The patrol's place: the next chunk that a run handles.
    pub patrol: Chunk,
}

// The scalars of the record: what a function below the public calls is handed, beside the arrays that it uses.
#[derive(Clone, Copy)]
pub struct Summary {
    pub bytes: u32,
    pub bins: u32,
    pub donor: Chunk,
    pub top: Chunk,
    pub merge: bool,
    pub used: u32,
    pub patrol: Chunk,
}

// The ends of the bins' lists, lent: what a grant or a free changes beside the scalars.
#[derive(Drop)]
pub struct Ends<'a> {
    pub heads: &'a mut [u32],
    pub tails: &'a mut [u32],
}

impl Summary {
    pub fn with_donor(self, donor: Chunk) -> Self
        ensures { result ≡ donor_now self donor.0 }
    {
        Self { donor, ..self }
    }

    pub fn with_top(self, top: Chunk) -> Self
        ensures { result ≡ top_now self top.0 }
    {
        Self { top, ..self }
    }

    pub fn with_used(self, used: u32) -> Self
        ensures { result ≡ used_now self used }
    {
        Self { used, ..self }
    }

    pub fn with_patrol(self, patrol: Chunk) -> Self
        ensures { result ≡ patrol_now self patrol.0 }
    {
        Self { patrol, ..self }
    }
}

impl Heap {
    // All fields 0, merging off: what a refused setup gives.
    pub fn empty() -> Self
        ensures { result ≡ empty }
    {
        Self {
            bytes: 0,
            bins: 0,
            sizes: [0; PLACES],
            heads: [0; PLACES],
            tails: [0; PLACES],
            donor: Chunk(0),
            top: Chunk(0),
            merge: false,
            used: 0,
            patrol: Chunk(0),
        }
    }

    pub fn summary(self) -> Summary
        ensures { result ≡ summary_of self }
    {
        Summary {
            bytes: self.bytes,
            bins: self.bins,
            donor: self.donor,
            top: self.top,
            merge: self.merge,
            used: self.used,
            patrol: self.patrol,
        }
    }

    // All that a grant or a free changes.
    pub fn with_books(self, heads: [u32; PLACES], tails: [u32; PLACES], summary: Summary) -> Self
        ensures { result ≡ with_ends (with_summary self summary) heads tails }
    {
        let sizes = self.sizes;
        Self {
            bytes: summary.bytes,
            bins: summary.bins,
            sizes,
            heads,
            tails,
            donor: summary.donor,
            top: summary.top,
            merge: summary.merge,
            used: summary.used,
            patrol: summary.patrol,
        }
    }

    pub fn with_merge(mut self, merge: bool) -> Self
        ensures { result ≡ with_merge self merge }
    {
        self.merge = merge;
        self
    }

    pub fn with_patrol(mut self, patrol: Chunk) -> Self
        ensures { result ≡ with_patrol self patrol.0 }
    {
        self.patrol = patrol;
        self
    }
}
