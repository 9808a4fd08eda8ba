//! Listing the free lines of some blocks and the free blocks, for threads to draw from.
//!
//! Where a heap has many runs of free lines, no epoch draws them all, and listing them all would make each pause longer. So a listing has
//! so many runs at most, of the blocks from where the last one ended, round the heap.
ghost use Rattle.std.specs.Prelude.{◌≡◌, ◌≢◌, ℕ, ◌+◌, ◌<◌, ◌≤◌, [], length};
ghost use Rattle.lxr_layout.specs.declared.TheConstants.{MOST_BLOCKS};
ghost use Rattle.lxr_image.specs.Runs.{with_runs};
ghost use Rattle.lxr_image.specs.Settled.{StandsByLines};
ghost use Rattle.lxr_image.specs.Spaces.{IsSpace, Turns, tables_of};
ghost use Rattle.lxr_blocks.specs.InTurn.{ListsInTurn, NoRunIsLeftOut, round_from, runs_from};
ghost use Rattle.lxr_blocks.specs.Listing.{block_runs, listed_frees, with_frees};
ghost use Rattle.lxr_blocks.specs.States.{AreFreeBlocks, state_in};
ghost use Rattle.lxr_blocks.specs.declared.states.BlockState.TheVariants.{Free};

use crate::in_use::next_in_use;
use crate::listing::{begin_lists, list_between, list_block};
use lxr_image::Space;
use lxr_layout::LINES_IN_BLOCK;

/// The block that stands so many places after one, round a heap of so many blocks.
fn block_after(blocks: u32, from: u32, places: u32) -> u32
    requires from { from < blocks }
    requires places { places ≤ blocks }
    requires blocks { blocks ≤ MOST_BLOCKS }
    ensures around { result ≡ round_from blocks from places }
    ensures within { result < blocks }
{
    let block = from + places;
    if block < blocks {
        block
    } else {
        block - blocks
    }
}

/// The first block from one on that isn't Free; where all are, how many there are.
#[inline(always)]
fn end_of_free(space: &Space, from: u32) -> u32
    requires space { IsSpace space.now }
    requires from { from ≤ space.now.limits.blocks }
    ensures range { (from ≤ result) × (result ≤ space.now.limits.blocks) }
    ensures free { AreFreeBlocks (tables_of space.now) from result }
    ensures used { result < space.now.limits.blocks → state_in (tables_of space.now) result ≢ Free }
{
    next_in_use(space, from).unwrap_or(space.limits.blocks)
}

/// How many blocks in a row from one on list no run, of so many at most, up to the end of the heap: as many as are known to have no free line,
/// or where the first isn't, as many as are Free.
#[inline(always)]
fn without_runs(space: &Space, block: u32, most: u32) -> u32
    requires space { IsSpace space.now }
    requires block { block < space.now.limits.blocks }
    ensures few { result ≤ most }
    ensures within { block + result ≤ space.now.limits.blocks }
    ensures none { (b : ℕ) → block ≤ b → b < block + result → block_runs (tables_of space.now) b ≡ [] }
{
    let known = space.next_long(block, 1);
    let end = if known > block {
        known
    } else {
        end_of_free(space, block)
    };
    (end - block).min(most)
}

/// Writes the runs of blocks from one on and round the heap, as long as those of one more surely find room among so many. It answers how many
/// blocks it has passed, and how many runs there are.
fn list_round(space: &mut Space, from: u32, most: u32) -> (u32, u32)
    requires space { IsSpace space.old }
    requires from { from < space.old.limits.blocks }
    ensures runs { Turns space.old space.new (with_runs (tables_of space.old) 0 (runs_from (tables_of space.old) space.old.limits.blocks from result.0)) }
    ensures count { result.1 ≡ length (runs_from (tables_of space.old) space.old.limits.blocks from result.0) }
    ensures once { result.0 ≤ space.old.limits.blocks }
    ensures few { result.1 ≤ most }
    ensures full { result.0 < space.old.limits.blocks → most < result.1 + 64 }
{
    let blocks = space.limits.blocks;
    let mut passed = 0;
    let mut runs = 0;
    while passed < blocks && runs + 64 <= most {
        let block = block_after(blocks, from, passed);
        let skipped = without_runs(space, block, blocks - passed);
        if skipped == 0 {
            runs = list_block(space, block, runs);
            passed += 1;
        } else {
            passed += skipped;
        }
    }
    (passed, runs)
}

/// The first block from one on that isn't known to have the state of its lines. What it answered before is still so where it lies beyond that
/// block, so the heap is searched once for all of a listing.
fn next_noted(space: &Space, from: u32, before: u32) -> u32
    requires from { from ≤ space.now.limits.blocks }
    requires before { before ≤ space.now.limits.blocks }
    requires known { (b : ℕ) → from ≤ b → b < before → StandsByLines (tables_of space.now) b }
    ensures range { (from ≤ result) × (result ≤ space.now.limits.blocks) }
    ensures known { (b : ℕ) → from ≤ b → b < result → StandsByLines (tables_of space.now) b }
{
    if before > from {
        before
    } else {
        space.next_noted(from)
    }
}

/// The first block from one on that may be Free, at most one up to which each has the state of its lines: one of them that is known to have a
/// line that isn't free isn't Free.
fn next_maybe_free(space: &Space, from: u32, noted: u32) -> u32
    requires noted { (from ≤ noted) × (noted ≤ space.now.limits.blocks) }
    requires known { (b : ℕ) → from ≤ b → b < noted → StandsByLines (tables_of space.now) b }
    ensures range { (from ≤ result) × (result ≤ noted) }
    ensures used { (b : ℕ) → from ≤ b → b < result → state_in (tables_of space.now) b ≢ Free }
{
    space.next_long(from, LINES_IN_BLOCK as u8).min(noted)
}

/// Writes the numbers of all Free blocks, in order, and answers how many there are.
fn list_frees(space: &mut Space) -> u32
    requires { IsSpace space.old }
    ensures frees { Turns space.old space.new (with_frees (tables_of space.old) 0 (listed_frees (tables_of space.old) space.old.limits.blocks)) }
    ensures count { result ≡ length (listed_frees (tables_of space.old) space.old.limits.blocks) }
{
    let blocks = space.limits.blocks;
    let mut frees = 0;
    let mut at = 0;
    let mut noted = 0;
    while at < blocks {
        noted = next_noted(space, at, noted);
        let first = next_maybe_free(space, at, noted);
        let end = end_of_free(space, first);
        frees = list_between(space, first, end, frees);
        at = (end + 1).min(blocks);
    }
    frees
}

/// Lists the runs of Partly and World blocks from a block on and round the heap, at most so many, and all Free blocks in order. A block is listed
/// whole, so the last 63 places may stay empty. It answers the block at which the next listing begins. Nothing is drawn of either table yet, and
/// no lines are left from which an object was placed last.
pub fn list_in_turn(space: &mut Space, from: u32, most: u32) -> u32
    requires space { IsSpace space.old }
    requires from { from < space.old.limits.blocks }
    ensures lists { (many : ℕ) × ListsInTurn from most many space.old space.new × (result ≡ round_from space.old.limits.blocks from many) }
    ensures next { result < space.old.limits.blocks }
    ensures space { IsSpace space.new }
{
    let (passed, runs) = list_round(space, from, most);
    let frees = list_frees(space);
    begin_lists(space, runs, frees);
    block_after(space.limits.blocks, from, passed)
}

/// No run is left out for ever, where runs are listed in turn.
pub fn no_run_is_left_out()
    ensures { NoRunIsLeftOut }
{}
