// The questions by their numbers, which a caller gives. What is answered to each is in the rules.
ghost use Rattle.std.specs.Prelude.{◌≡◌};
ghost use Rattle.record.specs.declared.answers.Refusal.TheVariants.{NotThere};
ghost use Rattle.record.specs.Questions.{IsBinQuestion, IsChunkQuestion};

use crate::answers::Refusal;

// The chunk of a live block: this one is asked of a block's place, every other question of a chunk's.
pub const ASK_CHUNK: u32 = 3;

#[derive(Clone, Copy)]
pub enum ChunkQuestion {
    Bin = 1,
    Block = 2,
    Next = 4,
    NextInBin = 5,
    Previous = 6,
    PreviousInBin = 7,
    Size = 8,
    Type = 9,
}

#[derive(Clone, Copy)]
pub enum BinQuestion {
    Count = 1,
    First = 2,
    Last = 3,
}

// A number that names no question.
#[derive(Clone, Copy)]
pub struct NoQuestion(pub u32);

impl TryFrom<u32> for ChunkQuestion {
    type Error = NoQuestion;

    ghost try_from_gives = { IsChunkQuestion };

    fn try_from(number: u32) -> Result<Self, NoQuestion> {
        match number {
            1 => Ok(Self::Bin),
            2 => Ok(Self::Block),
            4 => Ok(Self::Next),
            5 => Ok(Self::NextInBin),
            6 => Ok(Self::Previous),
            7 => Ok(Self::PreviousInBin),
            8 => Ok(Self::Size),
            9 => Ok(Self::Type),
            _ => Err(NoQuestion(number)),
        }
    }
}

impl TryFrom<u32> for BinQuestion {
    type Error = NoQuestion;

    ghost try_from_gives = { IsBinQuestion };

    fn try_from(number: u32) -> Result<Self, NoQuestion> {
        match number {
            1 => Ok(Self::Count),
            2 => Ok(Self::First),
            3 => Ok(Self::Last),
            _ => Err(NoQuestion(number)),
        }
    }
}

impl From<NoQuestion> for Refusal {
    ghost from_gives = { λ _ why. why ≡ NotThere };

    fn from(_none: NoQuestion) -> Refusal {
        Refusal::NotThere
    }
}
