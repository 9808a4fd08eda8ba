//! Listing the free lines and the free blocks, for threads to draw from.
ghost use Rattle.std.specs.Prelude.{◌≡◌, ℕ, ◌+◌, ◌-◌, ◌*◌, ◌<◌, ◌≤◌, IfNone, IfSome, List, length, take};
ghost use Rattle.lxr_layout.specs.declared.TheConstants.{MOST_BLOCKS};
ghost use Rattle.lxr_image.specs.Runs.{bits_of, with_runs, words_of_runs};
ghost use Rattle.lxr_image.specs.Settled.{AreRunsOfFree};
ghost use Rattle.lxr_image.specs.Spaces.{IsSpace, Turns, tables_of};
ghost use Rattle.lxr_blocks.specs.declared.listing.TheConstants.{MOST_RUNS};
ghost use Rattle.lxr_blocks.specs.Listing.{TurnsWithRest, block_runs, listed_frees, listed_runs, numbers_from, run_words, with_counts, with_frees, with_listed, with_lists};

use crate::in_use::next_in_use;
use crate::masks::{edges_of, free_mask, next_run};
use crate::states::{BlockState, state};
use lxr_image::Space;
use lxr_layout::{FREE_BLOCK_COUNT, FREE_BLOCK_CURSOR, RUN_COUNT, RUN_CURSOR, run_word};

/// The most runs that a block has: between two of them lies a line.
const MOST_RUNS: usize = 64;

/// Finds the runs of a block with these free lines. Their words are written to the front of a row, and it answers how many there are.
fn find_runs(free: u128, block: u32, words: &mut [u64; MOST_RUNS]) -> usize
    requires { block < MOST_BLOCKS }
    ensures most { result ≤ MOST_RUNS }
    ensures runs { take result words.new ≡ words_of_runs (bits_of free) block }
{
    let mut edges = edges_of(free);
    let mut many = 0;
    while let Some((run, behind)) = next_run(edges, block) {
        words[many] = run_word(run);
        many += 1;
        edges = behind;
    }
    many
}

/// Finds the runs of a block and writes them to the run table from an index on. It answers the index behind them. They are kept for the listings
/// to come.
fn list_anew(space: &mut Space, block: u32, first: u32) -> u32
    requires space { IsSpace space.old }
    requires block { block < space.old.limits.blocks }
    requires first { first + 64 ≤ 64 * space.old.limits.blocks }
    ensures runs { Turns space.old space.new (with_runs (tables_of space.old) first (run_words (tables_of space.old) block)) }
    ensures count { result ≡ first + length (run_words (tables_of space.old) block) }
{
    let mut words = [0; MOST_RUNS];
    let many = find_runs(free_mask(space, block), block, &mut words);
    let found = &words[..many];
    space.put_runs(first, found);
    space.keep_runs(block, found);
    first + many as u32
}

/// Writes the runs of a block to the run table from an index on, where they are kept and that place is none of a later block's, and answers
/// how many there are.
fn copy_lines(space: &mut Space, block: u32, first: u32) -> Option<u32>
    requires space { IsSpace space.old }
    requires block { block < space.old.limits.blocks }
    ensures none { IfNone result (space.new ≡ space.old) }
    ensures some { IfSome result (λ many. (words : List ℕ) × AreRunsOfFree words (tables_of space.old) block × (many ≡ length words) × Turns space.old space.new (with_runs (tables_of space.old) first words)) }
{
    if first > 64 * block {
        return None;
    }
    space.put_known_runs(block, first)
}

/// Writes the runs of a block to the run table from an index on, and answers the index behind them. Where they are kept they are copied.
fn list_lines(space: &mut Space, block: u32, first: u32) -> u32
    requires space { IsSpace space.old }
    requires block { block < space.old.limits.blocks }
    requires first { first + 64 ≤ 64 * space.old.limits.blocks }
    ensures runs { Turns space.old space.new (with_runs (tables_of space.old) first (run_words (tables_of space.old) block)) }
    ensures count { result ≡ first + length (run_words (tables_of space.old) block) }
    ensures room { result ≤ first + 64 }
{
    match copy_lines(space, block, first) {
        Some(many) => first + many,
        None => list_anew(space, block, first),
    }
}

/// Writes the runs of a block that has the state for it.
pub(crate) fn list_block(space: &mut Space, block: u32, first: u32) -> u32
    requires space { IsSpace space.old }
    requires block { block < space.old.limits.blocks }
    requires first { first + 64 ≤ 64 * space.old.limits.blocks }
    ensures runs { Turns space.old space.new (with_runs (tables_of space.old) first (block_runs (tables_of space.old) block)) }
    ensures count { result ≡ first + length (block_runs (tables_of space.old) block) }
    ensures room { result ≤ first + 64 }
{
    match state(space, block) {
        BlockState::Partly | BlockState::World => list_lines(space, block, first),
        BlockState::Free | BlockState::Whole | BlockState::Chosen => first,
    }
}

/// Writes the numbers of blocks in a row that are Free to the table of free blocks from an index on, and answers the index behind them.
#[inline(always)]
pub(crate) fn list_between(space: &mut Space, from: u32, end: u32, first: u32) -> u32
    requires space { IsSpace space.old }
    requires blocks { (from ≤ end) × (end ≤ space.old.limits.blocks) }
    requires first { first ≤ from }
    ensures frees { Turns space.old space.new (with_frees (tables_of space.old) first (numbers_from from (end - from))) }
    ensures count { result ≡ first + (end - from) }
{
    let mut at = first;
    for block in from..end {
        space.put_free(at, u64::from(block));
        at += 1;
    }
    at
}

/// Writes the runs of all blocks and the numbers of all Free ones, and answers how many there are of each.
fn list_all(space: &mut Space) -> (u32, u32)
    requires { IsSpace space.old }
    ensures lists { Turns space.old space.new (with_listed (tables_of space.old) (listed_runs (tables_of space.old) space.old.limits.blocks) (listed_frees (tables_of space.old) space.old.limits.blocks)) }
    ensures runs { result.0 ≡ length (listed_runs (tables_of space.old) space.old.limits.blocks) }
    ensures frees { result.1 ≡ length (listed_frees (tables_of space.old) space.old.limits.blocks) }
{
    let mut runs = 0;
    let mut frees = 0;
    let mut at = 0;
    while let Some(block) = next_in_use(space, at) {
        runs = list_block(space, block, runs);
        frees = list_between(space, at, block, frees);
        at = block + 1;
    }
    frees = list_between(space, at, space.limits.blocks, frees);
    (runs, frees)
}

/// Begins to draw anew of lists of so many runs and so many blocks. No lines are left from which an object was placed last.
pub(crate) fn begin_lists(space: &mut Space, runs: u32, frees: u32)
    requires { IsSpace space.old }
    ensures { TurnsWithRest space.old space.new (with_counts (tables_of space.old) runs frees) 0 0 }
{
    space.put_cursor(RUN_CURSOR, 0);
    space.put_cursor(RUN_COUNT, u64::from(runs));
    space.put_cursor(FREE_BLOCK_CURSOR, 0);
    space.put_cursor(FREE_BLOCK_COUNT, u64::from(frees));
    space.rest_next = 0;
    space.rest_end = 0;
}

/// Lists the runs of all Partly and World blocks, and all Free blocks, in order, and answers how many runs there
/// are. Nothing is drawn of either table yet, and no lines are left from which an object was placed last.
pub fn list_runs(space: &mut Space) -> u32
    requires { IsSpace space.old }
    ensures lists { TurnsWithRest space.old space.new (with_lists (tables_of space.old) (listed_runs (tables_of space.old) space.old.limits.blocks) (listed_frees (tables_of space.old) space.old.limits.blocks)) 0 0 }
    ensures count { result ≡ length (listed_runs (tables_of space.old) space.old.limits.blocks) }
    ensures space { IsSpace space.new }
{
    let (runs, frees) = list_all(space);
    begin_lists(space, runs, frees);
    runs
}
