//! Releasing the blocks that were chosen.
ghost use Rattle.std.specs.Prelude.{◌<◌};
ghost use Rattle.lxr_image.specs.Spaces.{IsSpace, Turns, tables_of};
ghost use Rattle.lxr_evac_blocks.specs.Releasing.{with_block_released, with_releases};

use lxr_blocks::{BlockState, renew_state, state};
use lxr_image::Space;

/// Gives a block that is Chosen the state of its free lines.
fn release_block(space: &mut Space, block: u32)
    requires space { IsSpace space.old }
    requires block { block < space.old.limits.blocks }
    ensures { Turns space.old space.new (with_block_released (tables_of space.old) block) }
{
    match state(space, block) {
        BlockState::Chosen => {
            space.put_state(block, BlockState::Whole.number());
            renew_state(space, block);
        }
        _ => {}
    }
}

/// Gives each Chosen block the state of its free lines, so that no block is Chosen. All other blocks stay as they are.
pub fn release_blocks(space: &mut Space)
    requires { IsSpace space.old }
    ensures tables { Turns space.old space.new (with_releases (tables_of space.old) space.old.limits.blocks) }
    ensures space { IsSpace space.new }
{
    for block in 0..space.limits.blocks {
        release_block(space, block);
    }
}
