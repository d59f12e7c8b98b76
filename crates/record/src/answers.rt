// What calls answer: one enum for all of them, and the refusals by name.
// When each is given is in the rules.
ghost use Rattle.std.specs.Prelude.{◌≡◌};
ghost use Rattle.record.specs.Answers.{number_of, told};

use crate::heap::Heap;
use region::Block;

// The numbers are the paper's.
#[derive(Clone, Copy)]
pub enum Refusal {
    RegionLength = 1,
    BadTable = 2,
    DonorSize = 3,
    HeapFails = 4,
    BlockSize = 5,
    NotLive = 6,
    NoRoom = 7,
    NotThere = 8,
    RunSize = 10,
    BeyondMending = 12,
}

// The check's four figures.
#[derive(Clone, Copy)]
pub struct Counts {
    pub chunks: u32,
    pub ordinary: u32,
    pub used: u32,
    pub free: u32,
}

// A refusal is an answer and no `Err`: the record is handed back beside either, and the rules' `Meets` states both at once.
#[derive(Clone, Copy)]
pub enum Answer {
    Done,
    Granted(Block, i32),
    Returned(i32),
    // A value, or none where there is no such chunk, block or bin. None is not a value of 0: that names the start, or the first bin.
    Told(Option<u32>),
    Counted(Counts),
    Refused(Refusal),
}

// What a call returns: its answer beside the record that it hands back.
#[derive(Clone, Copy)]
pub struct Reply {
    pub answer: Answer,
    pub heap: Heap,
}

impl From<Refusal> for u32 {
    ghost from_gives = { λ refusal n. n ≡ number_of refusal };

    fn from(refusal: Refusal) -> u32 {
        refusal as u32
    }
}

// The answer to a question.
impl From<Result<Option<u32>, Refusal>> for Answer {
    ghost from_gives = { λ asked answer. answer ≡ told asked };

    fn from(asked: Result<Option<u32>, Refusal>) -> Answer {
        match asked {
            Ok(value) => Answer::Told(value),
            Err(why) => Answer::Refused(why),
        }
    }
}
