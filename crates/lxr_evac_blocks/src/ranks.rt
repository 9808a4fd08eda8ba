//! The ranks of blocks in a larger heap: those of which the fewest lines aren't free go first.
ghost use Rattle.std.specs.Prelude.{◌≡◌, ℕ, ◌^◌, ◌<◌, ◌≤◌, Some, None, if◌then◌else◌, slice_index};
ghost use Rattle.lxr_image.specs.Spaces.{IsSpace, tables_of};
ghost use Rattle.lxr_evac_blocks.specs.Choosing.{may_choose, taken_count};
ghost use Rattle.lxr_evac_blocks.specs.Ranks.{AreNumbers, fewer_taken, numbers_after};

use crate::choosable::lines_if_choosable;
use lxr_image::Space;

/// A number for each number of lines that may not be free of a block that may be chosen, 0 to 32.
pub(crate) type ByLines = [u32; 33];

/// Gives a block that may be chosen the next number of those of which as many lines aren't free.
pub(crate) fn number_block(space: &Space, next: &mut ByLines, block: u32) -> Option<u32>
    requires space { IsSpace space.now }
    requires block { block < space.now.limits.blocks }
    requires few { (lines : ℕ) → lines ≤ 32 → slice_index next.old lines < 2 ^ 31 }
    ensures number { result ≡ (if may_choose (tables_of space.now) block then Some (slice_index next.old (taken_count (tables_of space.now) block)) else None) }
    ensures next { next.new ≡ numbers_after (tables_of space.now) block next.old }
{
    let lines = lines_if_choosable(space, block)? as usize;
    let number = next[lines];
    next[lines] = number + 1;
    Some(number)
}

/// Of how many blocks that may be chosen so many lines aren't free.
fn count_by_lines(space: &Space) -> ByLines
    requires { IsSpace space.now }
    ensures { AreNumbers (tables_of space.now) (λ lines. 0) space.now.limits.blocks result }
{
    let mut counts = [0; 33];
    for block in 0..space.limits.blocks {
        let _ = number_block(space, &mut counts, block);
    }
    counts
}

/// The rank of the first block of which so many lines aren't free: how many go before it.
pub(crate) fn first_ranks(space: &Space) -> ByLines
    requires { IsSpace space.now }
    ensures { AreNumbers (tables_of space.now) (λ lines. fewer_taken (tables_of space.now) lines space.now.limits.blocks) 0 result }
{
    let mut ranks = count_by_lines(space);
    let mut before = 0;
    for lines in 0..33 {
        let here = ranks[lines];
        ranks[lines] = before;
        before += here;
    }
    ranks
}
