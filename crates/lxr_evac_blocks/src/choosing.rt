//! Choosing the blocks whose objects are to be moved away.
ghost use Rattle.std.specs.Prelude.{◌≡◌, ℕ, ◌^◌, ◌<◌, ◌≤◌, ◌&&◌, nat_lt, slice_index};
ghost use Rattle.lxr_layout.specs.declared.TheConstants.{MOST_BLOCKS_OF_SMALL};
ghost use Rattle.lxr_image.specs.Spaces.{IsSpace, Turns, tables_of};
ghost use Rattle.lxr_evac_blocks.specs.Choosing.{left_after, may_choose, taken_count, with_block_chosen, with_choice, with_choices};
ghost use Rattle.lxr_evac_blocks.specs.Ranks.{numbers_after};

use crate::choosable::lines_if_choosable;
use crate::ranks::{ByLines, first_ranks, number_block};
use lxr_blocks::BlockState;
use lxr_image::Space;
use lxr_layout::{MOST_BLOCKS_OF_SMALL, REMEMBERED_CURSOR};

/// Makes a block Chosen where it may be and some are left to be chosen, and answers how many are left then.
fn choose_block(space: &mut Space, block: u32, left: u32) -> u32
    requires space { IsSpace space.old }
    requires block { block < space.old.limits.blocks }
    ensures tables { Turns space.old space.new (with_block_chosen (tables_of space.old) block (nat_lt 0 left && may_choose (tables_of space.old) block)) }
    ensures left { result ≡ left_after (tables_of space.old) block left }
{
    if left == 0 {
        return 0;
    }
    if lines_if_choosable(space, block).is_some() {
        space.put_state(block, BlockState::Chosen.number());
        return left - 1;
    }
    left
}

/// Chooses the blocks of a small heap: the first that may be chosen, in order. Each is looked at once, until as many are chosen as may be.
fn choose_first(space: &mut Space)
    requires space { IsSpace space.old }
    requires small { space.old.limits.blocks ≤ MOST_BLOCKS_OF_SMALL }
    ensures tables { Turns space.old space.new (with_choices space.old.limits (tables_of space.old) space.old.limits.blocks) }
    ensures space { IsSpace space.new }
{
    let mut left = space.limits.evacuate;
    for block in 0..space.limits.blocks {
        left = choose_block(space, block, left);
    }
}

/// Makes a block Chosen where it may be and its rank is below the most that may be Chosen: `next` has the rank of the next block of which so
/// many lines aren't free.
fn choose_by_rank(space: &mut Space, next: &mut ByLines, block: u32)
    requires space { IsSpace space.old }
    requires block { block < space.old.limits.blocks }
    requires few { (lines : ℕ) → lines ≤ 32 → slice_index next.old lines < 2 ^ 31 }
    ensures tables { Turns space.old space.new (with_block_chosen (tables_of space.old) block
        (may_choose (tables_of space.old) block && nat_lt (slice_index next.old (taken_count (tables_of space.old) block)) space.old.limits.evacuate)) }
    ensures next { next.new ≡ numbers_after (tables_of space.old) block next.old }
{
    if let Some(rank) = number_block(space, next, block) {
        if rank < space.limits.evacuate {
            space.put_state(block, BlockState::Chosen.number());
        }
    }
}

/// Chooses the blocks of a larger heap: those of which the fewest lines aren't free, and of as many the first. Each is looked at twice.
fn choose_emptiest(space: &mut Space)
    requires space { IsSpace space.old }
    requires large { MOST_BLOCKS_OF_SMALL < space.old.limits.blocks }
    ensures tables { Turns space.old space.new (with_choices space.old.limits (tables_of space.old) space.old.limits.blocks) }
    ensures space { IsSpace space.new }
{
    let mut next = first_ranks(space);
    for block in 0..space.limits.blocks {
        choose_by_rank(space, &mut next, block);
    }
}

/// Chooses the blocks whose objects are to be moved away when the trace that begins now ends: Partly blocks with at most 32 lines that aren't
/// free, as many as `Limits::evacuate` says, or fewer where there are fewer. They become Chosen, and the remembered set is cleared. In a heap of
/// at most `MOST_BLOCKS_OF_SMALL` blocks they are the first such blocks, in order; in a larger one those of which the fewest lines aren't free,
/// and of as many the first.
///
/// In a small heap it goes over the blocks once, and looks at none once as many are Chosen as may be; in a larger one it goes over all of them
/// twice, and where none may be Chosen over none. Of each block that it looks at it reads the state, and of a Partly one the mask of its free
/// lines.
pub fn choose_blocks(space: &mut Space)
    requires { IsSpace space.old }
    ensures tables { Turns space.old space.new (with_choice space.old.limits (tables_of space.old)) }
    ensures space { IsSpace space.new }
{
    if space.limits.evacuate > 0 {
        if space.limits.blocks <= MOST_BLOCKS_OF_SMALL {
            choose_first(space);
        } else {
            choose_emptiest(space);
        }
    }
    space.put_cursor(REMEMBERED_CURSOR, 0);
}
