// The ten calls as an action makes them: the record's words are lent, and the answer's are given back.
ghost use Rattle.std.specs.Prelude.{◌≡◌, ◌+◌, ◌≤◌, length, min, slice_get, slice_range, unwrap_or};

use crate::script::Args;
use abi::{ANSWER_WORDS, RECORD_WORDS};

// A table of more sizes than a valid one has can be lent: it must be refused.
const MOST_SIZES: usize = 40;

#[derive(Clone, Copy)]
pub enum Call {
    Setup,
    Allocate,
    AllocateCleared,
    Free,
    Reallocate,
    SetMerge,
    Check,
    AskChunk,
    AskBin,
    Patrol,
}

// The table is the arguments from the fourth on.
fn table(args: &Args) -> &[u32]
    ensures sizes { let asked = unwrap_or (slice_get args.now.0 2) 0 in
        result.now ≡ slice_range args.now.0 3 (3 + min MOST_SIZES asked) }
    ensures most { length result.now ≤ MOST_SIZES }
{
    let sizes = MOST_SIZES.min(args.at(2) as usize);
    &args.0[3..3 + sizes]
}

impl Call {
    // An answer starts as zeros, so that nothing of an earlier call is left in it.
    pub fn answer(
        self,
        args: &Args,
        region: &mut [u32],
        state: &mut [u32; RECORD_WORDS],
    ) -> [u32; ANSWER_WORDS] {
        let mut answer = [0; ANSWER_WORDS];
        let first = args.at(0);
        let second = args.at(1);
        match self {
            Call::Setup => {
                abi::kz_setup(region, table(args), first, second != 0, state, &mut answer)
            }
            Call::Allocate => abi::kz_allocate(region, state, first, &mut answer),
            Call::AllocateCleared => abi::kz_allocate_cleared(
                region,
                state,
                first,
                second,
                &mut answer,
            ),
            Call::Free => abi::kz_free(region, state, first, &mut answer),
            Call::Reallocate => abi::kz_reallocate(region, state, first, second, &mut answer),
            Call::SetMerge => abi::kz_set_merge(region, state, first != 0, &mut answer),
            Call::Check => abi::kz_check(region, state, &mut answer),
            Call::AskChunk => abi::kz_ask_chunk(region, state, first, second, &mut answer),
            Call::AskBin => abi::kz_ask_bin(region, state, first, second, &mut answer),
            Call::Patrol => abi::kz_patrol(region, state, first, &mut answer),
        };
        answer
    }
}
