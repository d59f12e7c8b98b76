// The script as numbers, and the numbers as actions: what is to be done, how many arguments follow, and those.
// Every byte that is no digit separates two numbers, and a comment goes from '#' to the end of its line.
// Numbers are read as they are wanted, so that a script needs no memory beside its bytes.
ghost use Rattle.std.specs.Prelude.{◌≡◌, ◌<◌, ◌≤◌, IfSome, length, slice_get, unwrap_or};
ghost use Rattle.std.specs.Iterator.{at_most};

use crate::words::set_word;

// An action has places for this many arguments.
const MOST_ARGS: usize = 64;

// What is behind the end of a comment's line.
fn behind_comment(bytes: &[u8]) -> &[u8]
    ensures { length result.now ≤ length bytes.now }
{
    match bytes.iter().position(|byte| *byte == b'\n') {
        Some(end) => &bytes[end + 1..],
        None => &[],
    }
}

// The first digit that is in no comment, and the bytes behind it.
fn first_digit(bytes: &[u8]) -> Option<(u8, &[u8])>
    ensures { IfSome result (λ found. length found.1.now < length bytes.now) }
{
    let mut left = bytes;
    while let Some(at) = left
        .iter()
        .position(|byte| byte.is_ascii_digit() || *byte == b'#')
    {
        let byte = left[at];
        let behind = &left[at + 1..];
        if byte != b'#' {
            return Some((byte, behind));
        }
        left = behind_comment(behind);
    }
    None
}

// Modulo 2^32, so that a number of any length is one.
fn with_digit(value: u32, digit: u8) -> u32 {
    value
        .wrapping_mul(10)
        .wrapping_add(u32::from(digit.wrapping_sub(b'0')))
}

// The number that starts with this digit and goes on in the bytes, and the bytes behind it.
fn number(first: u8, bytes: &[u8]) -> (u32, &[u8])
    ensures { length result.1.now ≤ length bytes.now }
{
    let mut value = with_digit(0, first);
    for (at, byte) in bytes.iter().enumerate() {
        if !byte.is_ascii_digit() {
            return (value, &bytes[at..]);
        }
        value = with_digit(value, *byte);
    }
    (value, &[])
}

// The numbers of the bytes that are left.
#[derive(Drop)]
pub struct Numbers<'a>(pub &'a [u8]);

impl Iterator for Numbers<'_> {
    type Item = u32;

    ghost next_gives = { λ s _ t. length t.0.now ≤ length s.0.now };

    ghost remaining = { λ s. at_most (length s.0.now) };

    fn next(&mut self) -> Option<u32> {
        let Some((first, behind)) = first_digit(self.0) else {
            self.0 = &[];
            return None;
        };
        let (value, rest) = number(first, behind);
        self.0 = rest;
        Some(value)
    }
}

// The arguments of an action.
#[derive(Drop)]
pub struct Args(pub [u32; MOST_ARGS]);

impl Args {
    pub fn new() -> Self {
        Self([0; MOST_ARGS])
    }

    // Reads how many there are, and those. Where there is no place for one it is read and dropped,
    // so an action may have more than its reader knows.
    pub fn read(&mut self, numbers: &mut Numbers)
        ensures { length numbers.new.0.now ≤ length numbers.old.0.now }
    {
        self.0 = [0; MOST_ARGS];
        // Where no count is given it is 0.
        let count = numbers.next().unwrap_or(0);
        for index in 0..count {
            let Some(value) = numbers.next() else {
                break;
            };
            set_word(&mut self.0, index, value);
        }
    }

    // An argument that is not given is 0.
    pub fn at(&self, index: usize) -> u32
        ensures { result ≡ unwrap_or (slice_get self.now.0 index) 0 }
    {
        self.0.get(index).copied().unwrap_or(0)
    }
}
