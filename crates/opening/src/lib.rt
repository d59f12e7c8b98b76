// Setup on any region: the refusals in their order, and an accepted setup's headers and record put together.
// The words of the headers and the record are in the crate `fresh`.
#![tactic(auto)]

ghost use Rattle.std.specs.Prelude.{◌≡◌};
ghost use Rattle.opening.specs.Opening.{bytes_m};
ghost use Rattle.rules.specs.Setup.{donor_fits};
ghost use Rattle.rules.specs.Statements.{SetsUp};

use fresh::first_record::{first_donor, fresh};
use fresh::write_headers;
use record::answers::{Answer, Refusal, Reply};
use record::heap::Heap;
use record::table::valid;
use region::{ALIGNMENT, Chunk, END_SIZE, FEWEST_WORDS, LEAST, MOST_WORDS};

// The bytes that are no donor's: the ends, and a top chunk of the least size.
const KEPT: u32 = 2 * END_SIZE + LEAST;

// A donor of 0 bytes is none at all.
fn donor_fits(bytes: u32, donor: u32) -> bool
    ensures { result ≡ donor_fits bytes donor }
{
    if donor == 0 {
        return true;
    }
    if donor < LEAST {
        return false;
    }
    if donor % ALIGNMENT != 0 {
        return false;
    }
    donor <= bytes.saturating_sub(KEPT)
}

// The bytes of the heap that a region of so many words is set up as: an odd last word is none of it. Or why it cannot be set up.
#[tactic(auto, unfolding(crate::specs::Opening::bytes_m))]
fn heap_bytes(words: usize, table: &[u32], donor: u32) -> Result<u32, Refusal>
    ensures { result ≡ bytes_m words table.now donor }
{
    if words < FEWEST_WORDS || MOST_WORDS < words {
        return Err(Refusal::RegionLength);
    }
    if !valid(table) {
        return Err(Refusal::BadTable);
    }
    let bytes = (words / 2) as u32 * 8;
    if !donor_fits(bytes, donor) {
        return Err(Refusal::DonorSize);
    }
    Ok(bytes)
}

// An odd last word is not lent on, so that no function below can read or write it. A refused setup gives an empty record.
pub fn setup(region: &mut [u32], table: &[u32], donor: u32, merge: bool) -> Reply
    ensures { SetsUp region.old table.now donor merge result region.new }
{
    let bytes = match heap_bytes(region.len(), table, donor) {
        Ok(bytes) => bytes,
        Err(why) => {
            return Reply {
                answer: Answer::Refused(why),
                heap: Heap::empty(),
            };
        }
    };
    let words = bytes as usize / 4;
    let top = Chunk(END_SIZE + donor);
    let end = Chunk(bytes - END_SIZE);
    let donor_chunk = first_donor(donor);
    write_headers(&mut region[..words], donor_chunk, top, end);
    Reply {
        answer: Answer::Done,
        heap: fresh(bytes, table, donor_chunk, top, merge),
    }
}
