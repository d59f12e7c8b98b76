// How many bytes a request needs: with the two links of its chunk, rounded up to a multiple of 8, and no less than a free chunk has.
ghost use Rattle.std.specs.Prelude.{◌≡◌};
ghost use Rattle.grant.specs.Need.{need_m};
ghost use Rattle.rules.specs.Serve.{permitted};

use region::{ALIGNMENT, LEAST, OVERHEAD};

// The largest request that is permitted.
const MOST_BYTES: u32 = 65488;

// The links of the chunk, and what makes a division round up.
const ROUNDING: u32 = OVERHEAD + ALIGNMENT - 1;

pub fn is_permitted(z: u64) -> bool
    ensures { result ≡ permitted z }
{
    (1..=MOST_BYTES as u64).contains(&z)
}

// Of a size that is not permitted the need is 0: callers have refused it before.
#[tactic(auto, unfolding(crate::specs::Need::need_m))]
pub fn need_of(z: u32) -> u32
    ensures { result ≡ need_m z }
{
    if MOST_BYTES < z {
        return 0;
    }
    let n = (z + ROUNDING) / ALIGNMENT * ALIGNMENT;
    n.max(LEAST)
}
