// The words that calls work on: those of the region and those of the record.
ghost use Rattle.std.specs.Prelude.{◌≡◌, ◌≤◌, length, min};

use crate::calls::Call;
use crate::digest::{START, digest};
use crate::script::Args;
use crate::words::set_word;
use abi::{ANSWER_WORDS, RECORD_WORDS};

// More words than the largest region has, so that regions that are too large are played too.
const MOST_WORDS: usize = 16400;

// The space is there once for all regions of a script, and a region is the front of it:
// so many words as were asked for, or all.
#[derive(Drop)]
pub struct Memory {
    space: [u32; MOST_WORDS],
    words: u32,
    pub state: [u32; RECORD_WORDS],
}

// The next of a row of numbers that only looks random.
fn following(w: u32) -> u32 {
    w.wrapping_mul(1664525).wrapping_add(1013904223)
}

fn fill(words: &mut [u32], seed: u32) {
    let mut w = seed;
    for word in words {
        w = following(w);
        *word = w;
    }
}

impl Memory {
    // A region of no words, and a record of zeros.
    pub fn new() -> Self {
        Self {
            space: [0; MOST_WORDS],
            words: 0,
            state: [0; RECORD_WORDS],
        }
    }

    // A region of so many words, or of as many as there may be, and a record of zeros.
    pub fn renew(&mut self, words: u32, seed: u32)
        ensures { self.new.words ≡ words }
    {
        self.words = words;
        let len = self.len();
        fill(&mut self.space[..len], seed);
        self.state = [0; RECORD_WORDS];
    }

    fn len(&self) -> usize
        ensures { result ≡ min MOST_WORDS self.now.words }
    {
        MOST_WORDS.min(self.words as usize)
    }

    pub fn region(&self) -> &[u32]
        ensures words { length result.now ≡ min MOST_WORDS self.now.words }
        ensures most { length result.now ≤ MOST_WORDS }
    {
        &self.space[..self.len()]
    }

    pub fn set_region_word(&mut self, index: u32, value: u32) {
        let words = self.len();
        set_word(&mut self.space[..words], index, value);
    }

    pub fn answer(&mut self, call: Call, args: &Args) -> [u32; ANSWER_WORDS] {
        let words = self.len();
        let space = &mut self.space[..];
        call.answer(args, &mut space[..words], &mut self.state)
    }

    pub fn digest(&self, answer: &[u32; ANSWER_WORDS]) -> u32 {
        let said = digest(START, answer);
        let recorded = digest(said, &self.state);
        digest(recorded, self.region())
    }
}
