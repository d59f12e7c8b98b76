// The digest of words: each is mixed into a number of 32 bits.
// Where the digest of one slice starts from the digest of another, the two count as one row of words.
ghost use Rattle.std.specs.Prelude.{◌≡◌};
ghost use Rattle.vectors.specs.Digest.{mixed, digest_from};

pub const START: u32 = 2166136261;

// An odd number with bits all over it: a product with it spreads every bit.
const FACTOR: u32 = 2654435761;

fn mix(d: u32, word: u32) -> u32
    ensures { result ≡ mixed d word }
{
    (d ^ word).rotate_left(5).wrapping_mul(FACTOR)
}

pub fn digest(start: u32, words: &[u32]) -> u32
    ensures { result ≡ digest_from start words.now }
{
    words.iter().fold(start, |d, word| mix(d, *word))
}
