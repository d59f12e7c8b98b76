// What a call hands back: a refusal with the record as it came, and the change in used bytes, a signed difference of two sizes.
// A function below the calls that is lent the bins' ends hands back an answer and a summary, or a refusal, and the call sets the record.
#![tactic(auto)]

ghost use Rattle.std.specs.Prelude.{◌≡◌};
ghost use Rattle.replies.specs.Replies.{change_m, refused_reply};

use record::answers::{Answer, Refusal, Reply};
use record::heap::{Heap, Summary};
use region::LARGEST_HEAP;

// What an accepted call comes to.
#[derive(Clone, Copy)]
pub struct Answered {
    pub answer: Answer,
    pub summary: Summary,
}

pub fn refused(heap: Heap, why: Refusal) -> Reply
    ensures { result ≡ refused_reply heap why }
{
    Reply {
        answer: Answer::Refused(why),
        heap,
    }
}

// No chunk is larger than the largest heap, so that the difference fits; of larger numbers, which no caller hands in, it is 0.
#[tactic(auto, unfolding(crate::specs::Replies::change_m))]
pub fn change(before: u32, after: u32) -> i32
    ensures { result ≡ change_m before after }
{
    if before > LARGEST_HEAP {
        return 0;
    }
    if after > LARGEST_HEAP {
        return 0;
    }
    (after as i32) - (before as i32)
}
