// The words of a block: set to 0, or copied to the beginning of another block. Which blocks are live is not known here.
#![tactic(auto)]

ghost use Rattle.std.specs.Prelude.{◌≡◌, ◌-◌, length, replicate};
ghost use Rattle.blocks.specs.Blocks.{cleared_m, copied_m};

use region::{Block, Chunk, OVERHEAD, store, word};

// The first word of a block, by its number in the chunk: it follows the two links.
const FIRST_WORD: u32 = OVERHEAD / 4;

// A loop and not `fill`: that has a trap in it, which `tools/portable` refuses.
fn clear(words: &mut [u32])
    ensures { words.new ≡ replicate (length words.old) 0 }
{
    for value in words {
        *value = 0;
    }
}

// Up to `end`, where the block's chunk ends. A part that is not inside the region, which no heap that passes has, is left alone.
pub fn clear_block(region: &mut [u32], block: Block, end: u32)
    ensures { region.new ≡ cleared_m region.old block.0 end }
{
    let from = (block.0 / 4) as usize;
    let to = (end / 4) as usize;
    if to < from {
        return;
    }
    if region.len() < to {
        return;
    }
    clear(&mut region[from..to]);
}

// The block of the chunk `from`, which has so many words with its two links, to the beginning of the block of the chunk `to`.
// Word by word and not by `copy_within`: where the two overlap or leave the region, `copied_m` says what this loop does.
pub fn copy_block(region: &mut [u32], from: Chunk, to: Chunk, words: u32)
    ensures { region.new ≡ copied_m (words - 2) region.old from.0 to.0 2 }
{
    for number in FIRST_WORD..words {
        let value = word(region, from, number);
        store(region, to, number, value);
    }
}
