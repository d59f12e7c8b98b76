// Plays a script of calls from standard input, and prints a digest of all words after each call.
// A second library that plays the same script is compared with this one line by line.
#![tactic(auto)]

ghost use Rattle.std.specs.Prelude.{◌≡◌, ◌≤◌, IfOk, IfSome, length, take};

use crate::play::play;
use std::io;
use std::io::Read;

mod calls;
mod digest;
mod memory;
mod play;
mod script;
mod words;

// What is behind so many bytes of a script is not played.
const SCRIPT_BYTES: usize = 2097152;

fn space() -> [u8; SCRIPT_BYTES]
    ensures { SCRIPT_BYTES ≡ length result }
{
    [0; SCRIPT_BYTES]
}

// Reads until the input ends or the space is full, and returns how many bytes it read.
fn read_full<R: Read>(from: &mut R, script: &mut [u8]) -> io::Result<usize>
    ensures within { IfOk result (λ n. n ≤ length script.new) }
    ensures bytes { IfOk result (λ n. IfSome (R.remaining from.old) (λ bytes. take n script.new ≡ take (length script.new) bytes)) }
{
    let mut n = 0;
    while n < script.len() {
        let got = from.read(&mut script[n..])?;
        if got == 0 {
            return Ok(n);
        }
        n += got;
    }
    Ok(n)
}

// The script is the first bytes of the input, as many as a script may have.
fn read_script<R: Read>(from: &mut R, script: &mut [u8; SCRIPT_BYTES]) -> io::Result<usize>
    ensures within { IfOk result (λ n. n ≤ length script.new) }
    ensures bytes { IfOk result (λ n. IfSome (R.remaining from.old) (λ bytes. take n script.new ≡ take SCRIPT_BYTES bytes)) }
{
    read_full(from, script)
}

fn main(rt: HostRuntime) -> io::Result<()> {
    // On the stack: the first allocation would take 132 KiB more than it asks for.
    let mut script = space();
    let n = read_script(&mut rt.stdin(), &mut script)?;
    play(&rt, &script[..n])
}

#[cfg(test)]
mod tests {
    use super::*;
    use crate::calls::Call;
    use crate::memory::Memory;
    use crate::script::{Args, Numbers};
    use std::test::Fail;

    #[test]
    fn reads_as_much_as_a_script_may_have(rt: HostRuntime) -> Result<(), Fail> {
        let input = vec![in rt.alloc(); b'7'; 2097153]?;
        let mut script = space();
        let n = read_script(&mut input.as_slice(), &mut script)?;
        assert_eq!(rt; n, 2097152);
        Ok(())
    }

    #[test]
    fn finds_the_numbers(rt: HostRuntime) -> Result<(), Fail> {
        let found: Vec<u32> = Numbers(b"# 1\n-2 03x4294967299#5#6\n\n7").collect(rt.alloc())?;
        assert_eq!(rt; found.as_slice(), [2, 3, 3, 7].as_slice());
        Ok(())
    }

    #[test]
    fn has_as_many_words_as_it_may(rt: HostRuntime) -> Result<(), Fail> {
        let mut memory = Memory::new();
        for (words, want) in [(0, 0), (64, 64), (16401, 16400)] {
            memory.renew(words, 1);
            assert_eq!(rt; memory.region().len(), want);
        }
        Ok(())
    }

    #[test]
    fn makes_the_table_of_a_setup(rt: HostRuntime) -> Result<(), Fail> {
        let mut memory = Memory::new();
        memory.renew(64, 64);
        let mut args = Args::new();
        args.read(&mut Numbers(b"7 64 1 4 24 32 40 128"));
        let answer = memory.answer(Call::Setup, &args);
        assert_eq!(rt; answer, [0; 5]);
        Ok(())
    }
}
