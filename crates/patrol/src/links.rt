// What the links of a chunk say, whether they are right or not.
ghost use Rattle.std.specs.Prelude.{◌≡◌, ◌+◌, ltb};
ghost use Rattle.patrol.specs.Links.{can_follow_m};
ghost use Rattle.rules.specs.Patrol.{back_offset, broken, least_size, skips};

use headers::distance;
use region::{ALIGNMENT, BACKWARD, Chunk, END_SIZE, FORWARD, LEAST, word};

// Where the backward link leads, without its flags.
pub fn back_of(region: &[u32], chunk: Chunk) -> u32
    ensures { result ≡ back_offset region.now chunk.0 }
{
    let link = word(region, chunk, BACKWARD);
    link - link % ALIGNMENT
}

// The start is shorter than every other chunk.
fn least_size(place: u32) -> u32
    ensures { result ≡ least_size place }
{
    if place == 0 { END_SIZE } else { LEAST }
}

// Whether a chunk at the lower place has no room below the upper one.
pub fn is_near(lower: u32, upper: u32) -> bool
    ensures { result ≡ ltb upper (lower + least_size lower) }
{
    distance(lower, upper) < least_size(lower)
}

// The sign of a skipped chunk: the place that the link names is linked both ways with a place between the two.
#[tactic(auto, unfolding(rules::specs::Patrol::skips))]
fn is_skip(region: &[u32], chunk: Chunk, link: u32) -> bool
    ensures { result ≡ skips region.now chunk.0 link }
{
    let between = back_of(region, Chunk(link));
    if between <= chunk.0 {
        return false;
    }
    if link <= between {
        return false;
    }
    word(region, Chunk(between), FORWARD) == link
}

// The link stays in the heap, leads to a multiple of 8, and goes up by no less than `least`. In 64 bits the sum does not wrap; a difference by
// saturating_sub would believe a link down where `least` is 0, against the contract.
#[tactic(auto, unfolding(crate::specs::Links::can_follow_m))]
pub fn can_follow(end: u32, chunk: Chunk, least: u32, link: u32) -> bool
    ensures { result ≡ can_follow_m end chunk.0 least link }
{
    if end < link {
        return false;
    }
    if link % ALIGNMENT != 0 {
        return false;
    }
    chunk.0 as u64 + least as u64 <= link as u64
}

#[tactic(auto, using(crate::proofs::LinksLaws::broken_is))]
pub fn is_broken(region: &[u32], end: u32, chunk: Chunk, link: u32) -> bool
    ensures { result ≡ broken region.now end chunk.0 link }
{
    if !can_follow(end, chunk, least_size(chunk.0), link) {
        return true;
    }
    is_skip(region, chunk, link)
}
