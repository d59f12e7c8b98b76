// Whether a region is as long as the record's heap bytes say. No word of it is read here.
ghost use Rattle.std.specs.Prelude.{◌≡◌};
ghost use Rattle.chain.specs.Length.{fits_length_m};

use region::{ALIGNMENT, FEWEST_WORDS, MOST_WORDS};

// A heap has whole pairs of words, so that it ends at a multiple of 8.
const PAIR_BYTES: usize = ALIGNMENT as usize;

// The region has a permitted number of words, and the heap bytes are all of them but an odd last one.
#[tactic(auto, unfolding(crate::specs::Length::fits_length_m))]
pub fn fits_length(words: usize, bytes: u32) -> bool
    ensures { result ≡ fits_length_m words bytes }
{
    if words < FEWEST_WORDS {
        return false;
    }
    if MOST_WORDS < words {
        return false;
    }
    words / 2 * PAIR_BYTES == bytes as usize
}
