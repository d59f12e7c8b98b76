// The script played: action after action, and a line after each call.
use crate::calls::Call;
use crate::memory::Memory;
use crate::script::{Args, Numbers};
use crate::words::set_word;
use std::io;

// What an action asks for.
#[derive(Clone, Copy)]
enum Op {
    Region,
    Call(Call),
    Write,
    Record,
}

// A number that asks for nothing.
#[derive(Clone, Copy, Debug)]
struct UnknownOp;

// The patrol came after two actions that are no calls.
impl TryFrom<u32> for Op {
    type Error = UnknownOp;

    fn try_from(number: u32) -> Result<Self, UnknownOp> {
        match number {
            0 => Ok(Op::Region),
            1 => Ok(Op::Call(Call::Setup)),
            2 => Ok(Op::Call(Call::Allocate)),
            3 => Ok(Op::Call(Call::AllocateCleared)),
            4 => Ok(Op::Call(Call::Free)),
            5 => Ok(Op::Call(Call::Reallocate)),
            6 => Ok(Op::Call(Call::SetMerge)),
            7 => Ok(Op::Call(Call::Check)),
            8 => Ok(Op::Call(Call::AskChunk)),
            9 => Ok(Op::Call(Call::AskBin)),
            10 => Ok(Op::Write),
            11 => Ok(Op::Record),
            12 => Ok(Op::Call(Call::Patrol)),
            _ => Err(UnknownOp),
        }
    }
}

fn apply(rt: &impl Print, number: u32, args: &Args, memory: &mut Memory) -> io::Result<()> {
    let Ok(op) = Op::try_from(number) else {
        return println!(rt; "unknown");
    };
    match op {
        Op::Region => memory.renew(args.at(0), args.at(1)),
        Op::Write => memory.set_region_word(args.at(0), args.at(1)),
        Op::Record => set_word(&mut memory.state, args.at(0), args.at(1)),
        Op::Call(call) => {
            let answer = memory.answer(call, args);
            let digest = memory.digest(&answer);
            println!(rt; "{digest}")?;
        }
    }
    Ok(())
}

pub fn play(rt: &impl Print, script: &[u8]) -> io::Result<()> {
    // Until the script asks for a region there is one of no words.
    let mut memory = Memory::new();
    let mut numbers = Numbers(script);
    // The arguments have one place for all actions: those of an action are not copied.
    let mut args = Args::new();
    while let Some(number) = numbers.next() {
        args.read(&mut numbers);
        apply(rt, number, &args, &mut memory)?;
    }
    Ok(())
}
