//! Zeros for the words of Free blocks. A page of memory that is all 0 may go back to the system, since zeros are found there again.
ghost use Rattle.std.specs.Prelude.{◌≡◌, ◌+◌, ◌*◌, ◌<◌, ◌≤◌, IfNone, IfSome, IsTrue};
ghost use Rattle.lxr_layout.specs.declared.TheConstants.{WORDS_IN_BLOCK};
ghost use Rattle.lxr_image.specs.Spaces.{BlockIsZero, IsSpace, Turns, tables_of};
ghost use Rattle.lxr_image.specs.Tables.{changed};
ghost use Rattle.lxr_invariant.specs.AbstractState.{AbstractState};
ghost use Rattle.lxr_invariant.specs.Quiescent.{IsAtRest, IsQuiescent};
ghost use Rattle.lxr_placing.specs.Trimming.{IsNextFree, NoneIsFree, StandsForTheSame, ZeroesNext, with_zeros};

use lxr_blocks::{BlockState, state};
use lxr_image::Space;
use lxr_layout::WORDS_IN_BLOCK;

/// The first Free block from one on.
fn next_free(space: &Space, from: u32) -> Option<u32>
    requires space { IsSpace space.now }
    ensures none { IfNone result (NoneIsFree (tables_of space.now) from space.now.limits.blocks) }
    ensures next { IfSome result (λ block. IsNextFree (tables_of space.now) from space.now.limits.blocks block) }
{
    let mut block = from;
    while block < space.limits.blocks {
        match state(space, block) {
            BlockState::Free => return Some(block),
            _ => block += 1,
        }
    }
    None
}

/// Makes a word of the heap 0. One that is 0 is only read, so that memory which the system has given for no write stays as it is.
#[inline(always)]
fn zero_word(space: &mut Space, at: u32)
    requires space { IsSpace space.old }
    requires at { at < WORDS_IN_BLOCK * space.old.limits.blocks }
    ensures { let t = tables_of space.old in Turns space.old space.new (record t { heap = changed t.heap at 0 }) }
{
    if space.heap_word(at) != 0 {
        space.put_heap(at, 0);
    }
}

/// Whether no word of a block was ever written, so that all are 0.
fn is_unwritten(space: &Space, block: u32) -> bool
    requires space { IsSpace space.now }
    requires block { block < space.now.limits.blocks }
    ensures { IsTrue result → BlockIsZero space.now block }
{
    match space.lend_heap(WORDS_IN_BLOCK * block) {
        Some(_) => false,
        None => true,
    }
}

/// Makes all words of a block 0. One that was never written is passed over.
fn zero_block(space: &mut Space, block: u32)
    requires space { IsSpace space.old }
    requires block { block < space.old.limits.blocks }
    ensures { Turns space.old space.new (with_zeros (tables_of space.old) block) }
{
    if is_unwritten(space, block) {
        return;
    }
    let first = WORDS_IN_BLOCK * block;
    for at in first..first + WORDS_IN_BLOCK {
        zero_word(space, at);
    }
}

/// Makes all words of the first Free block from one on 0, and answers which block that is; none where no block from there on is Free. The space
/// stands for what it stood for: no object lies in a Free block, and a new one writes each of its words.
pub fn zero_next_free(space: &mut Space, from: u32) -> Option<u32>
    requires { IsSpace space.old }
    ensures zeroes { ZeroesNext from space.old space.new result }
    ensures stands { StandsForTheSame space.old space.new }
{
    let block = next_free(space, from)?;
    zero_block(space, block);
    Some(block)
}
