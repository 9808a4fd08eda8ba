//! The sweep over all blocks.
ghost use Rattle.std.specs.Prelude.{◌<◌};
ghost use Rattle.lxr_image.specs.Settled.{AreCounted, AreCountedIn};
ghost use Rattle.lxr_image.specs.Spaces.{IsSpace, Turns, tables_of};
ghost use Rattle.lxr_blocks.specs.Lines.{free_in};
ghost use Rattle.lxr_blocks.specs.Masks.{IsMask};
ghost use Rattle.lxr_blocks.specs.States.{FreeBlocksAreFree, FreeIsFree, with_state_by_lines};
ghost use Rattle.lxr_blocks.specs.Swept.{with_states_by_lines};

use crate::masks::counted_mask;
use crate::states::{BlockState, longest_of, put_state_by, renew_state, state};
use lxr_image::Space;
use lxr_layout::LINES_IN_BLOCK;

/// The free lines of a block. Where its state is Free it tells that all are free.
#[inline(always)]
fn swept_mask(space: &Space, block: u32) -> u128
    requires space { IsSpace space.now }
    requires block { block < space.now.limits.blocks }
    requires free { FreeIsFree (tables_of space.now) block }
    ensures { IsMask result (free_in (tables_of space.now) block) }
{
    match state(space, block) {
        BlockState::Free => u128::MAX,
        _ => counted_mask(space, block),
    }
}

/// Gives a block the state of its free lines, unless it is Chosen or World. Its lines and its state are known from then on, but where all
/// lines of a Chosen or World block are free.
fn settle_block(space: &mut Space, block: u32)
    requires space { IsSpace space.old }
    requires block { block < space.old.limits.blocks }
    requires free { FreeIsFree (tables_of space.old) block }
    requires counted { AreCountedIn (tables_of space.old) block }
    ensures { Turns space.old space.new (with_state_by_lines (tables_of space.old) block) }
{
    let free = swept_mask(space, block);
    put_state_by(space, block, free);
    let longest = longest_of(free);
    if u32::from(longest) < LINES_IN_BLOCK || space.state_word(block) == BlockState::Free.number() {
        space.settle(block, free, longest);
    }
}

/// Gives each block the state of its free lines, unless it is Chosen or World. One that is known to have the state of its lines isn't looked at.
pub fn sweep_lines(space: &mut Space)
    requires { IsSpace space.old }
    ensures states { Turns space.old space.new (with_states_by_lines (tables_of space.old) space.old.limits.blocks) }
    ensures space { IsSpace space.new }
{
    let mut block = space.next_noted(0);
    while block < space.limits.blocks {
        renew_state(space, block);
        block = space.next_noted(block + 1);
    }
}

/// Gives each block the state of its free lines, unless it is Chosen or World, where each object has a count. One that is Free has only
/// free lines, and nothing but its state is read. One that is known to have the state of its lines isn't looked at; one that is looked at
/// isn't again, until something changes in it.
pub fn settle_lines(space: &mut Space)
    requires space { IsSpace space.old }
    requires free { FreeBlocksAreFree (tables_of space.old) space.old.limits.blocks }
    requires counted { AreCounted (tables_of space.old) }
    ensures states { Turns space.old space.new (with_states_by_lines (tables_of space.old) space.old.limits.blocks) }
    ensures space { IsSpace space.new }
{
    let mut block = space.next_noted(0);
    while block < space.limits.blocks {
        settle_block(space, block);
        block = space.next_noted(block + 1);
    }
}

ghost use Rattle.lxr_blocks.specs.Swept.{SweptIsByLines};

/// After a sweep each block that is neither Chosen nor World has the state of its lines, and all else is as before.
pub fn swept_is_by_lines()
    ensures { SweptIsByLines }
{}
