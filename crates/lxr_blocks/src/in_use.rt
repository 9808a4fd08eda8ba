//! The blocks that aren't Free, one after another.
ghost use Rattle.std.specs.Prelude.{◌+◌, ◌≤◌, ◌↔◌, IfNone, IfSome, IsTrue};
ghost use Rattle.lxr_image.specs.Spaces.{IsSpace, tables_of};
ghost use Rattle.lxr_blocks.specs.States.{AreFreeBlocks, IsNextInUse};

use crate::states::{BlockState, state};
use lxr_image::Space;

/// How many blocks in a row are looked at at once.
const BLOCKS_AT_ONCE: u32 = 8;

/// Whether so many blocks in a row, from one on, are all Free. The state of a Free block is 0, so where the first is it is one test of
/// the bits of all.
#[inline(always)]
fn are_free(space: &Space, first: u32) -> bool
    requires space { IsSpace space.now }
    requires blocks { first + BLOCKS_AT_ONCE ≤ space.now.limits.blocks }
    ensures { IsTrue result ↔ AreFreeBlocks (tables_of space.now) first (first + BLOCKS_AT_ONCE) }
{
    let mut states = space.state_word(first);
    if states != 0 {
        return false;
    }
    for block in first + 1..first + BLOCKS_AT_ONCE {
        states |= space.state_word(block);
    }
    states == 0
}

/// The first block from one on that isn't Free. A Free block costs an eighth of a test and one read.
#[inline(always)]
pub fn next_in_use(space: &Space, from: u32) -> Option<u32>
    requires space { IsSpace space.now }
    ensures none { IfNone result (AreFreeBlocks (tables_of space.now) from space.now.limits.blocks) }
    ensures next { IfSome result (λ block. IsNextInUse (tables_of space.now) from space.now.limits.blocks block) }
{
    let mut block = from;
    while block < space.limits.blocks {
        let stands_at_front = block % BLOCKS_AT_ONCE == 0;
        if stands_at_front
            && block + BLOCKS_AT_ONCE <= space.limits.blocks
            && are_free(space, block)
        {
            block += BLOCKS_AT_ONCE;
            continue;
        }
        match state(space, block) {
            BlockState::Free => block += 1,
            _ => return Some(block),
        }
    }
    None
}
